//! What networks and refusals are, over the definitions alone.

ghost use Rattle.std.specs.Prelude.{◌≡◌, true, List};
ghost use Rattle.fb_model.specs.Names.{is_in};
ghost use Rattle.fb_model.specs.Declarations.{InstanceTree, NetworkTree};
ghost use Rattle.fb_model.specs.Typing.{service_names};
ghost use Rattle.fb_model.specs.System as book;
ghost use Rattle.fb_faults.specs.declared.typing.TypeFault.{TypeFault};
ghost use Rattle.fb_faults.specs.declared.typing.TypeFault.TheVariants.{OutOfMemory};
ghost use Rattle.fb_types_networks.specs.Views.{Wired};
ghost use Rattle.fb_model.specs.NetworkFaults.{Placed};
ghost use Rattle.fb_types_networks.specs.Answers.{IsPlaced, IsServedAs, IsWired};
ghost use Rattle.fb_model.specs.NetworkFaults.{IsPlainFault, IsServedFault, IsNetworkFault};

/// An instance has one typed form at most, and so has a network of instances.
pub fn one_network()
    ensures plain { (i : InstanceTree) (body : book.Body) (p q : Placed) → IsPlaced i body p → IsPlaced i body q → p ≡ q }
    ensures served { (i : InstanceTree) (p q : Placed) → IsServedAs i p → IsServedAs i q → p ≡ q }
    ensures service { (i : InstanceTree) (p : Placed) → IsServedAs i p → is_in i.type.text service_names ≡ true }
    ensures network { (f : book.Face) (n : NetworkTree) (ps : List Placed) (v w : Wired) → IsWired f n ps v → IsWired f n ps w → v ≡ w }
{}

/// What is well typed has no fault that a refusal could name, unless it is that memory ran out.
pub fn refusals_are_true()
    ensures plain { (i : InstanceTree) (body : book.Body) (p : Placed) (f : TypeFault) → IsPlaced i body p → IsPlainFault i body f → f ≡ OutOfMemory }
    ensures served { (i : InstanceTree) (p : Placed) (f : TypeFault) → IsServedAs i p → IsServedFault i f → f ≡ OutOfMemory }
    ensures network { (g : book.Face) (n : NetworkTree) (ps : List Placed) (w : Wired) (f : TypeFault) → IsWired g n ps w → IsNetworkFault g n ps f → f ≡ OutOfMemory }
{}
