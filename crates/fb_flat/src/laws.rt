//! What written paths and tables are, over the definitions alone.

ghost use Rattle.std.specs.Prelude.{◌≡◌, ◌∷◌, ℕ, List, map};
ghost use Rattle.std.specs.List.{AllByRecursion, Any};
ghost use Rattle.fb_model.specs.Names.{Name};
ghost use Rattle.fb_model.specs.Spelling.{IsWord, AreWords};
ghost use Rattle.fb_model.specs.CertificateText.{names_in};
ghost use Rattle.fb_model.specs.Declarations.{BlockTree, SourceTree};
ghost use Rattle.fb_model.specs.System.{Device, System};
ghost use Rattle.fb_model.specs.NetworkTyping.{ElaboratesWith};
ghost use Rattle.fb_model.specs.EventBlocks.{Elaborates};
ghost use Rattle.fb_model.specs.Store.{variable_names, inputs};
ghost use Rattle.fb_model.specs.Wires.{Leaf, leaves};
ghost use Rattle.fb_model_laws.specs.Words.{IsWordyDevice};
ghost use Rattle.fb_flat.specs.Sites.{text_of};
ghost use Rattle.fb_flat.specs.declared.flat.FlatDevice.{FlatDevice};
ghost use Rattle.fb_flat.specs.Sources.{written_inputs};
ghost use Rattle.fb_flat.specs.Leaves.{flat_device, written_device, IsFull};
ghost use Rattle.fb_types.specs.declared.typed.Configuration.{Configuration};
ghost use Rattle.fb_types.specs.Views.{system_of, system_offsets, all_offsets};
ghost use Rattle.fb_model.specs.SourceFaults.{IsCrowdedSource};
ghost use Rattle.fb_flat.specs.Tables.{AreDevices};

/// A path whose names are words is read back from its text.
pub fn paths_are_read_back()
    ensures { (n : Name) (ns : List Name) → IsWord n → AreWords ns → names_in (text_of (n ∷ ns)) ≡ n ∷ ns }
{}

/// The tables of a system whose names are words are the book's leaves: path by path, event output by event output and target by target, data input by data input.
pub fn tables_are_leaves()
    ensures { (devices : List FlatDevice) (system : System) → map flat_device devices ≡ map written_device system.devices → AllByRecursion IsWordyDevice system.devices → AreDevices devices system.devices }
{}

/// Where a resource of a typed source follows too many connections, it is at the name of one in the source whose resource does, if resources have
/// the offsets that they have there.
pub fn limits_are_at_resources()
    ensures { (source : SourceTree) (typed : Configuration) (at : ℕ) → Elaborates source (system_of typed) → system_offsets typed.devices.items ≡ all_offsets source.system.devices → Any (λ d. Any (λ r. IsFull r at) d.resources.items) typed.devices.items → IsCrowdedSource source at }
{}

/// All data inputs of the leaves of a well typed system are written, since its services have few values.
pub fn all_inputs_are_written()
    ensures { (library : List BlockTree) (source : SourceTree) (system : System) → ElaboratesWith library source system → AllByRecursion (λ (d : Device). AllByRecursion (λ (leaf : Leaf). written_inputs leaf.kind ≡ variable_names (inputs leaf.kind)) (leaves d)) system.devices }
{}
