//! Instances and their block types by the paths of leaves, without a look at all that a text declares.

use fb_tree::{BlockTree, BodyTree, InstanceTree, NetworkTree};
use fbr_notes::noted::Page;
use fbr_places::Writing;
use indexmap::IndexMap;
use std::alloc::{AllocError, Global};

// The instances of a network, by their names.
type Instances<'a> = IndexMap<String, &'a InstanceTree>;

/// The networks of a text: those of its resources by their paths, and those of its composites by the names of the types.
#[derive(Drop)]
pub struct Paths<'a> {
    resources: IndexMap<String, Instances<'a>>,
    composites: IndexMap<String, Instances<'a>>,
}

// The instances of a network.
fn instances_of<'a>(alloc: Global, network: &'a NetworkTree) -> Result<Instances<'a>, AllocError> {
    let mut found = IndexMap::new(alloc);
    for instance in &network.instances {
        found.insert(instance.name.text.clone()?, instance)?;
    }
    Ok(found)
}

// The path of a resource.
fn path_of(alloc: Global, device: &str, resource: &str) -> Result<String, AllocError> {
    let mut writing = Writing::new(alloc);
    writing.put(device);
    writing.put(".");
    writing.put(resource);
    writing.text()
}

impl<'a> Paths<'a> {
    // Adds the networks of composites.
    fn add_composites(&mut self, alloc: Global, blocks: &'a [BlockTree]) -> Result<(), AllocError> {
        for block in blocks {
            if let BodyTree::Network(network) = &block.body {
                let instances = instances_of(alloc, network)?;
                self.composites.insert(block.name.text.clone()?, instances)?;
            }
        }
        Ok(())
    }

    /// Those of a text.
    pub fn of(page: Page<'a>) -> Result<Paths<'a>, AllocError> {
        let alloc = page.alloc;
        let mut paths = Paths {
            resources: IndexMap::new(alloc),
            composites: IndexMap::new(alloc),
        };
        paths.add_composites(alloc, &page.types.file.blocks)?;
        for device in &page.types.file.system.devices {
            for resource in &device.resources {
                let path = path_of(
                    alloc,
                    device.name.text.as_str(),
                    resource.name.text.as_str(),
                )?;
                let instances = instances_of(alloc, &resource.network)?;
                paths.resources.insert(path, instances)?;
            }
        }
        Ok(paths)
    }

    /// The instance that the path of a leaf names.
    pub fn instance(
        &self,
        alloc: Global,
        path: &str,
    ) -> Result<Option<&'a InstanceTree>, AllocError> {
        let mut names = path.split('.');
        let (Some(device), Some(resource)) = (names.next(), names.next()) else {
            return Ok(None);
        };
        let around = path_of(alloc, device, resource)?;
        let mut network = self.resources.get(around.as_str());
        let mut found = None;
        for name in names {
            found = match network {
                Some(instances) => instances.get(name).copied(),
                None => None,
            };
            network = match found {
                Some(instance) => self.composites.get(instance.of_type.text.as_str()),
                None => None,
            };
        }
        Ok(found)
    }
}
