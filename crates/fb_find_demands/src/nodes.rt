//! The numbers of the nodes of a system.

ghost use Rattle.std.specs.Prelude.{◌≡◌, [], map, string_bytes, IfOk, IfErr};
ghost use Rattle.std.specs.List.{AllByRecursion};
ghost use Rattle.fb_model.specs.System.{System};
ghost use Rattle.fb_model.specs.Certificates.{all_leaves};
ghost use Rattle.fb_model.specs.CertificateText.{names_in};
ghost use Rattle.fb_model_laws.specs.Words.{IsWordyDevice};
ghost use Rattle.fb_find_laws.specs.Nodes.{AreRowsOf};
ghost use Rattle.fb_check_rows.specs.Faults.{IsMemory};
ghost use Rattle.fb_check_rows.specs.Members.{gathered};
ghost use Rattle.fb_check_rows.specs.Texts.{texts_of};
ghost use Rattle.fb_check_rows.specs.declared.kind.RowKind.TheVariants.{Charge, Weight};
ghost use Rattle.fb_types_blocks.specs.Views.{names_of};
ghost use Rattle.fb_flat.specs.Tables.{AreDevices};
ghost use Rattle.fb_find_demands.specs.Ends.{end_of};

use crate::Numbering;
use crate::channels::{channels, ends};
use crate::leaves::every_leaf;
use fb_check_rows::{RowKind, required};
use fb_faults::RowFault;
use fb_flat::Flat;
use std::alloc::Global;

/// The numbers of a system's states, event inputs and arrivals, in the order of their rows, and where datagrams are followed of its channels, upwards, each with
/// the first leaf that names it as its end.
pub fn numbering(alloc: Global, repeats: Option<u8>, flat: &Flat) -> Result<Numbering, RowFault>
    ensures rows { (s : System) → AreDevices flat.now.devices.items s.devices → AllByRecursion IsWordyDevice s.devices → IfOk result (λ n. AreRowsOf repeats (all_leaves s.devices) (names_of n.states) (names_of n.events) n.channels.items) }
    ensures ends { (s : System) → AreDevices flat.now.devices.items s.devices → IfOk result (λ n. map names_in (map string_bytes n.ends.items) ≡ map (end_of (all_leaves s.devices)) n.channels.items) }
    ensures texts { IfOk result (λ n. (names_of n.states ≡ gathered [] (texts_of Charge flat.now.devices.items)) × (names_of n.events ≡ gathered [] (texts_of Weight flat.now.devices.items))) }
    ensures memory { IfErr result IsMemory }
{
    let states = required(alloc, RowKind::Charge, flat)?;
    let events = required(alloc, RowKind::Weight, flat)?;
    let _ = states.len();
    let _ = events.len();
    let leaves = every_leaf(alloc, flat.devices.as_slice())?;
    let channels = channels(alloc, repeats, leaves.as_slice())?;
    let ends = ends(alloc, leaves.as_slice(), channels.as_slice())?;
    Ok(Numbering {
        states,
        events,
        channels,
        ends,
    })
}
