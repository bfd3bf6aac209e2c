//! Function block instances and their parameters.

ghost use Rattle.std.specs.Prelude.{◌≡◌, ◌⊎◌, ◌++◌, ◌∷◌, [], List, None, map, string_bytes, true, false, OnOk, IfOk, IfErr, IfSome, IfNone};
ghost use Rattle.fb_model.specs.Names.{is_in};
ghost use Rattle.fb_model.specs.Typing.{service_names};
ghost use Rattle.fb_model.specs.Values.{One};
ghost use Rattle.fb_model.specs.System as book;
ghost use Rattle.fb_model.specs.Wires.{inputs_of};
ghost use Rattle.fb_model.specs.NetworkTyping.{IsServed, AreParameters, variable_named, reserved, lacking};
ghost use Rattle.fb_tree.specs.Files as trees_of;
ghost use Rattle.fb_faults.specs.declared.typing.TypeFault.TheVariants.{OutOfMemory};
ghost use Rattle.fb_types_services.specs.Views.{service_of, typed_as};
ghost use Rattle.fb_types_services.specs.declared.service.Service.{Service as Made};
ghost use Rattle.fb_types_networks.specs.declared.typed.Body.TheVariants.{Served};
ghost use Rattle.fb_types_networks.specs.declared.typed.Instance.{out-Instance};
ghost use Rattle.fb_types_networks.specs.Views.{names_of, parameter_of, body_of, placed_of};
ghost use Rattle.fb_types_networks.specs.Answers.{inputs_in, reserved_in, IsParameter, IsPlaced, IsServedAs, FindsPlaced, FindsServed};
ghost use Rattle.fb_model.specs.NetworkFaults.{IsParameterFault, IsParametersFault, IsPlainFault, IsServedFault};

use crate::typed::{Body, Instance, Parameter};
use fb_faults::TypeFault;
use fb_tree::{InstanceTree, ParameterTree};
use fb_types_blocks::{constant, insert};
use fb_types_services::{Service, bare, served as service_of_tree};
use fb_words::ElemType;
use indexmap::IndexSet;
use std::alloc::{AllocError, Global};

// Whose data inputs parameters give values to.
#[derive(Clone, Copy)]
enum Owner<'a> {
    Declared(&'a Body),
    Service(&'a Service),
}

// Whether a service has a parameter of this name beside its data inputs: its number, or its wire format.
fn reserves(service: &Service, name: &str) -> bool
    ensures { result ≡ is_in name.now (reserved (service_of service.now)) }
{
    match service {
        Service::Input(_, _) | Service::Output(_, _) => name == "ID",
        Service::Publish(_, _) | Service::Subscribe(_, _) => name == "ID" || name == "FORMAT",
        Service::Delay | Service::Cycle | Service::Restart => false,
    }
}

impl<'a> Owner<'a> {
    // The type of its data input of a name.
    fn input(&self, name: &str) -> Option<ElemType>
        ensures { typed_as result (variable_named (inputs_in self.now) name.now) }
    {
        match self {
            Owner::Declared(body) => body.input(name),
            Owner::Service(service) => service.input(name),
        }
    }

    // Whether a parameter of this name is beside its data inputs.
    fn reserves(&self, name: &str) -> bool
        ensures { result ≡ is_in name.now (reserved_in self.now) }
    {
        match self {
            Owner::Declared(_) => false,
            Owner::Service(service) => reserves(service, name),
        }
    }
}

// A value under a name.
fn named(name: String, value: i64) -> Parameter
    ensures { parameter_of result ≡ record { name = string_bytes name; value = One value } }
{
    Parameter { name, value }
}

// The value of a data input, which has none before.
fn parameter(
    owner: &Owner,
    given: &mut IndexSet<String>,
    source: &ParameterTree,
) -> Result<Parameter, TypeFault>
    ensures typed { IfOk result (λ p. IsParameter (inputs_in owner.now) (names_of given.old) (trees_of.parameter_of source.now) (parameter_of p)) }
    ensures given { OnOk result (names_of given.new ≡ names_of given.old ++ string_bytes source.now.name.text ∷ []) }
    ensures refused { IfErr result (IsParameterFault (inputs_in owner.now) (names_of given.old) (trees_of.parameter_of source.now)) }
{
    let Some(of_type) = owner.input(source.name.text.as_str()) else {
        return Err(TypeFault::UnknownName(source.name.at));
    };
    if !insert(given, &source.name.text)? {
        return Err(TypeFault::TwoSources(source.at));
    }
    let value = constant(of_type, source.at, &source.value)?;
    let name = source.name.text.clone()?;
    Ok(named(name, value))
}

// The values of data inputs, in text order.
fn parameters(
    alloc: Global,
    owner: &Owner,
    sources: &[ParameterTree],
) -> Result<Vec<Parameter>, TypeFault>
    ensures typed { IfOk result (λ v. AreParameters (inputs_in owner.now) [] (lacking (reserved_in owner.now) (map trees_of.parameter_of sources.now)) (map parameter_of v.items)) }
    ensures refused { IfErr result (λ f. (f ≡ OutOfMemory) ⊎ IsParametersFault (inputs_in owner.now) [] (lacking (reserved_in owner.now) (map trees_of.parameter_of sources.now)) f) }
{
    let mut given = IndexSet::new(alloc);
    let mut parameters = Vec::new(alloc);
    for source in sources {
        if !owner.reserves(source.name.text.as_str()) {
            parameters.push(parameter(owner, &mut given, source)?)?;
        }
    }
    Ok(parameters)
}

// An instance of its parts.
fn instance(
    source: &InstanceTree,
    parameters: Vec<Parameter>,
    body: Body,
) -> Result<Instance, AllocError>
    ensures parts { IfOk result (λ i. placed_of i ≡ (string_bytes source.now.name.text, map parameter_of parameters.items, body_of body)) }
    ensures offset { IfOk result (λ i. (out-Instance i).at ≡ source.now.name.at) }
    ensures body { IfOk result (λ i. (out-Instance i).body ≡ body) }
{
    let name = source.name.text.clone()?;
    Ok(Instance {
        name,
        at: source.name.at,
        parameters,
        body,
    })
}

// An instance of a declared type.
fn declared(alloc: Global, source: &InstanceTree, body: Body) -> Result<Instance, TypeFault>
    ensures typed { IfOk result (λ i. IsPlaced (trees_of.instance_of source.now) (body_of body) (placed_of i)) }
    ensures offset { IfOk result (λ i. (out-Instance i).at ≡ (trees_of.instance_of source.now).name.at) }
    ensures body { IfOk result (λ i. (out-Instance i).body ≡ body) }
    ensures refused { IfErr result (IsPlainFault (trees_of.instance_of source.now) (body_of body)) }
{
    bare(source)?;
    let parameters = parameters(alloc, &Owner::Declared(&body), &source.parameters)?;
    Ok(instance(source, parameters, body)?)
}

/// An instance of a declared type, which has this body.
///
/// Refused with `BadService` at the instance's name where it has square brackets; with `UnknownName` at a parameter's name that is no
/// data input, `TwoSources` at the `:=` of one that is given again, and as a constant is at a value that is not one of its type.
pub fn plain(alloc: Global, source: &InstanceTree, body: Body) -> Result<Instance, TypeFault>
    ensures typed { IfOk result (λ i. IsPlaced (trees_of.instance_of source.now) (body_of body) (placed_of i)) }
    ensures offset { IfOk result (λ i. (out-Instance i).at ≡ (trees_of.instance_of source.now).name.at) }
    ensures body { IfOk result (λ i. (out-Instance i).body ≡ body) }
    ensures refused { IfErr result (IsPlainFault (trees_of.instance_of source.now) (body_of body)) }
    ensures only { (qs : List book.Parameter) → IsPlaced (trees_of.instance_of source.now) (body_of body) ((trees_of.instance_of source.now).name.text, qs, body_of body) → FindsPlaced result ((trees_of.instance_of source.now).name.text, qs, body_of body) }
{
    declared(alloc, source, body)
}

// An instance of a service with this one.
fn with_service(
    alloc: Global,
    source: &InstanceTree,
    service: Service,
) -> Result<Instance, TypeFault>
    ensures parts { IfOk result (λ i. ((placed_of i).0 ≡ (trees_of.instance_of source.now).name.text) × ((placed_of i).2 ≡ book.Served (service_of service))) }
    ensures typed { IfOk result (λ i. AreParameters (inputs_of (book.Served (service_of service))) [] (lacking (reserved (service_of service)) (trees_of.instance_of source.now).parameters) (placed_of i).1) }
    ensures offset { IfOk result (λ i. (out-Instance i).at ≡ (trees_of.instance_of source.now).name.at) }
    ensures body { IfOk result (λ i. (out-Instance i).body ≡ Served service) }
    ensures refused { IfErr result (λ f. (f ≡ OutOfMemory) ⊎ IsParametersFault (inputs_of (book.Served (service_of service))) [] (lacking (reserved (service_of service)) (trees_of.instance_of source.now).parameters) f) }
{
    let parameters = parameters(alloc, &Owner::Service(&service), &source.parameters)?;
    Ok(instance(source, parameters, Body::Served(service))?)
}

// An instance of a service, none where its type's name is no service's.
fn of_service(alloc: Global, source: &InstanceTree) -> Result<Option<Instance>, TypeFault>
    ensures typed { IfOk result (λ o. IfSome o (λ i. IsServedAs (trees_of.instance_of source.now) (placed_of i))) }
    ensures offset { IfOk result (λ o. IfSome o (λ i. (out-Instance i).at ≡ (trees_of.instance_of source.now).name.at)) }
    ensures body { IfOk result (λ o. IfSome o (λ i. (s : Made) × ((out-Instance i).body ≡ Served s))) }
    ensures none { IfOk result (λ o. IfNone o (is_in (trees_of.instance_of source.now).type.text service_names ≡ false)) }
    ensures refused { IfErr result (IsServedFault (trees_of.instance_of source.now)) }
{
    match service_of_tree(alloc, source)? {
        Some(service) => Ok(Some(with_service(alloc, source, service)?)),
        None => Ok(None),
    }
}

/// An instance of a service, none where its type's name is no service's.
///
/// Refused as services are, and as `plain` is for the parameters that are data inputs.
pub fn served(alloc: Global, source: &InstanceTree) -> Result<Option<Instance>, TypeFault>
    ensures typed { IfOk result (λ o. IfSome o (λ i. IsServedAs (trees_of.instance_of source.now) (placed_of i))) }
    ensures offset { IfOk result (λ o. IfSome o (λ i. (out-Instance i).at ≡ (trees_of.instance_of source.now).name.at)) }
    ensures body { IfOk result (λ o. IfSome o (λ i. (s : Made) × ((out-Instance i).body ≡ Served s))) }
    ensures none { IfOk result (λ o. IfNone o (is_in (trees_of.instance_of source.now).type.text service_names ≡ false)) }
    ensures refused { IfErr result (IsServedFault (trees_of.instance_of source.now)) }
    ensures only { (s : book.Service) (qs : List book.Parameter) → IsServed (trees_of.instance_of source.now) s qs → FindsServed result ((trees_of.instance_of source.now).name.text, qs, book.Served s) }
{
    of_service(alloc, source)
}
