//! Services whose number is missing, wrong or taken.

use fb_tree::{FileTree, InstanceTree, Literal};
use fbr_advice::advice::Advice;
use fbr_places::{Named, device_around, instance_around, network_around, tell_where};

// The number that the ID of a service is, of more than 16 bits where it is none; nothing where there is no ID.
fn number_of(instance: &InstanceTree) -> Option<u64> {
    for parameter in &instance.parameters {
        if parameter.name.text.as_str() == "ID" {
            return match parameter.value.value {
                Literal::Whole(false, number) | Literal::Typed(_, false, number) => Some(number),
                _ => Some(u64::MAX),
            };
        }
    }
    None
}

// Another instance of the devices that has the same number, in the same device where it is one of INPUT and OUTPUT.
fn other_of<'a>(file: &'a FileTree, instance: &InstanceTree) -> Option<&'a InstanceTree> {
    let own = device_around(file, instance.name.at)?.name.at;
    let number = number_of(instance)?;
    let of_type = instance.of_type.text.as_str();
    let is_local = of_type == "INPUT" || of_type == "OUTPUT";
    for device in &file.system.devices {
        for resource in &device.resources {
            for each in &resource.network.instances {
                let other = each.of_type.text.as_str();
                let is_kind = if is_local {
                    other == of_type && device.name.at == own
                } else {
                    other == "PUBLISH" || other == "SUBSCRIBE"
                };
                let is_other = each.name.at != instance.name.at;
                if is_kind && is_other && number_of(each).unwrap_or(u64::MAX) == number {
                    return Some(each);
                }
            }
        }
    }
    None
}

// What is wrong with the number of a service by itself.
fn said(instance: &InstanceTree) -> Option<&'static str> {
    match (instance.of_type.text.as_str(), number_of(instance)) {
        ("INPUT" | "OUTPUT" | "PUBLISH" | "SUBSCRIBE", None) => Some(
            "it has no ID: write `(ID := n)`, n from 0 to 65535",
        ),
        ("INPUT" | "OUTPUT" | "PUBLISH" | "SUBSCRIBE", Some(number)) => {
            if number > 65_535 {
                Some("its ID is none of 0 to 65535: give it one of these")
            } else {
                None
            }
        }
        _ => Some("only INPUT, OUTPUT, PUBLISH and SUBSCRIBE have square brackets: leave them out"),
    }
}

/// Writes what is wrong with the number of the service whose name is a byte, or which other one has it.
pub fn tell_service(file: &FileTree, app: Named<'_>, at: usize, advice: &mut Advice) {
    let Some(network) = network_around(file, at) else {
        return;
    };
    let Some(instance) = instance_around(network, at) else {
        return;
    };
    if let Some(says) = said(instance) {
        advice.put(says);
        return;
    }
    if let Some(other) = other_of(file, instance) {
        advice.said.put("the ID of ");
        advice.said.put(other.name.text.as_str());
        advice.said.put(", ");
        tell_where(app, other.name.at, &mut advice.said);
        advice.said.put(", is the same\n");
    }
}
