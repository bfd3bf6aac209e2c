//! What a byte of a text stands in.

use fb_tree::{
    BlockTree, BodyTree, ConnectionTree, DeviceTree, FileTree, InstanceTree, NetworkTree,
    ResourceTree,
};

/// The declaration of a block type in which a byte stands.
pub fn block_around(file: &FileTree, at: usize) -> Option<&BlockTree> {
    let mut found = None;
    for block in &file.blocks {
        if block.name.at <= at {
            found = Some(block);
        }
    }
    if file.system.name.at <= at {
        None
    } else {
        found
    }
}

/// The device in which a byte stands.
pub fn device_around(file: &FileTree, at: usize) -> Option<&DeviceTree> {
    let mut found = None;
    for device in &file.system.devices {
        if device.name.at <= at {
            found = Some(device);
        }
    }
    found
}

/// The resource in which a byte stands.
pub fn resource_around(file: &FileTree, at: usize) -> Option<&ResourceTree> {
    let mut found = None;
    for resource in &device_around(file, at)?.resources {
        if resource.name.at <= at {
            found = Some(resource);
        }
    }
    found
}

/// The network in which a byte stands, of a composite or of a resource.
pub fn network_around(file: &FileTree, at: usize) -> Option<&NetworkTree> {
    match block_around(file, at) {
        Some(block) => match &block.body {
            BodyTree::Network(network) => Some(network),
            BodyTree::Chart(_) => None,
        },
        None => Some(&resource_around(file, at)?.network),
    }
}

/// The instance of a network in whose declaration a byte stands.
pub fn instance_around(network: &NetworkTree, at: usize) -> Option<&InstanceTree> {
    let mut found = None;
    for instance in &network.instances {
        if instance.name.at <= at {
            found = Some(instance);
        }
    }
    found
}

/// The connection whose TO is this byte, and whether it is one of events.
pub fn connection_at(network: &NetworkTree, at: usize) -> Option<(&ConnectionTree, bool)> {
    for connection in &network.events {
        if connection.at == at {
            return Some((connection, true));
        }
    }
    for connection in &network.values {
        if connection.at == at {
            return Some((connection, false));
        }
    }
    None
}
