//! The names of services' ports, in the order of their interfaces.

ghost use Rattle.std.specs.Prelude.{◌≡◌, ◌++◌, [], ◌∷◌, List, None, Some, map, string_bytes, codes, IfOk, OnOk, ◌+◌, ◌<◌, ◌≤◌, length};
ghost use Rattle.fb_model.specs.Names.{Name};
ghost use Rattle.fb_model.specs.Store.{variable_names};
ghost use Rattle.fb_model.specs.Services.{digits, ports, sent, received, service_inputs, service_outputs, service_events, service_event_inputs, service_event_outputs, arrivals, can_emit};
ghost use Rattle.fb_types_services.specs.Views.{service_of, values_of, listed};

use crate::points::{
    ARRIVE, BEGIN, CNF, COLD, DT, EO, EXPIRE, IND, INIT, INITO, QI, QO, RD, REQ, RSP, SD, START,
    STOP,
};
use crate::service::Service;
use fb_words::ElemType;
use std::alloc::{AllocError, Global};

impl Service {
    /// The event inputs.
    pub fn event_inputs(&self) -> &'static [&'static str]
        ensures { map (λ s. s.now) result.now ≡ service_event_inputs (service_of self.now) }
    {
        match self {
            Service::Input(_, _) | Service::Restart => &[],
            Service::Output(_, _) => &[REQ],
            Service::Publish(_, _) => &[INIT, REQ],
            Service::Subscribe(_, _) => &[INIT, RSP],
            Service::Delay | Service::Cycle => &[START, STOP],
        }
    }

    /// The event outputs.
    pub fn event_outputs(&self) -> &'static [&'static str]
        ensures { map (λ s. s.now) result.now ≡ service_event_outputs (service_of self.now) }
    {
        match self {
            Service::Input(_, _) => &[IND],
            Service::Output(_, _) => &[],
            Service::Publish(_, _) => &[INITO, CNF],
            Service::Subscribe(_, _) => &[INITO, IND],
            Service::Delay | Service::Cycle => &[EO],
            Service::Restart => &[COLD],
        }
    }

    /// What comes from outside: a value, the expiry of a timer, or the start of the device. None where nothing does.
    pub fn arrival(&self) -> Option<&'static str>
        ensures { listed result ≡ arrivals (service_of self.now) }
    {
        match self {
            Service::Input(_, _) | Service::Subscribe(_, _) => Some(ARRIVE),
            Service::Output(_, _) | Service::Publish(_, _) => None,
            Service::Delay | Service::Cycle => Some(EXPIRE),
            Service::Restart => Some(BEGIN),
        }
    }

    /// What an event input or the arrival of this name can emit.
    pub fn emitted(&self, event: &str) -> &'static [&'static str]
        ensures { map (λ s. s.now) result.now ≡ can_emit (service_of self.now) event.now }
    {
        match self {
            Service::Input(_, _) => &[IND],
            Service::Output(_, _) => &[],
            Service::Publish(_, _) => { if event == INIT { &[INITO] } else { &[CNF] } }
            Service::Subscribe(_, _) => {
                if event == INIT {
                    &[INITO]
                } else if event == RSP {
                    &[]
                } else {
                    &[IND]
                }
            }
            Service::Delay | Service::Cycle => { if event == EXPIRE { &[EO] } else { &[] } }
            Service::Restart => &[COLD],
        }
    }
}

// The digit of a number below 10.
fn digit(number: usize) -> char
    requires { number < 10 }
    ensures { result ≡ 48 + number }
{
    char::from(48 + number as u8)
}

// Adds the digits of a number below 100.
fn add_digits(text: &mut String, number: usize) -> Result<(), AllocError>
    ensures { number < 100 → OnOk result (string_bytes text.new ≡ string_bytes text.old ++ digits number) }
{
    if number >= 10 {
        text.push(digit(number / 10 % 10))?;
    }
    text.push(digit(number % 10))
}

// The name of a port: what names begin with, and its number.
fn name(alloc: Global, prefix: &str, number: usize) -> Result<String, AllocError>
    ensures { number < 100 → IfOk result (λ t. string_bytes t ≡ prefix.now ++ digits number) }
{
    let mut text = String::from_str(alloc, prefix)?;
    add_digits(&mut text, number)?;
    Ok(text)
}

// Adds the names of ports, one for each value and numbered from 1 on.
fn add_ports(
    alloc: Global,
    names: &mut Vec<String>,
    prefix: &str,
    types: &[ElemType],
) -> Result<(), AllocError>
    ensures { length types.now < 100 → OnOk result (map string_bytes names.new.items ≡ map string_bytes names.old.items ++ variable_names (ports (λ n. prefix.now ++ digits n) 1 types.now)) }
{
    for index in 0..types.len() {
        names.push(name(alloc, prefix, index + 1)?)?;
    }
    Ok(())
}

impl Service {
    /// The data inputs. At most 16 values are declared; the names of more than 99 mean nothing.
    pub fn inputs(&self, alloc: Global) -> Result<Vec<String>, AllocError>
        ensures { length (values_of (service_of self.now)) < 100 → IfOk result (λ v. map string_bytes v.items ≡ variable_names (service_inputs (service_of self.now))) }
    {
        let mut names = Vec::new(alloc);
        match self {
            Service::Input(_, _) | Service::Restart => {}
            Service::Output(_, types) => add_ports(alloc, &mut names, SD, types)?,
            Service::Publish(_, types) => {
                names.push(String::from_str(alloc, QI)?)?;
                add_ports(alloc, &mut names, SD, types)?;
            }
            Service::Subscribe(_, _) => names.push(String::from_str(alloc, QI)?)?,
            Service::Delay | Service::Cycle => names.push(String::from_str(alloc, DT)?)?,
        }
        Ok(names)
    }

    /// The data outputs. At most 16 values are declared; the names of more than 99 mean nothing.
    pub fn outputs(&self, alloc: Global) -> Result<Vec<String>, AllocError>
        ensures { length (values_of (service_of self.now)) < 100 → IfOk result (λ v. map string_bytes v.items ≡ variable_names (service_outputs (service_of self.now))) }
    {
        let mut names = Vec::new(alloc);
        match self {
            Service::Input(_, types) => add_ports(alloc, &mut names, RD, types)?,
            Service::Publish(_, _) => names.push(String::from_str(alloc, QO)?)?,
            Service::Subscribe(_, types) => {
                names.push(String::from_str(alloc, QO)?)?;
                add_ports(alloc, &mut names, RD, types)?;
            }
            Service::Output(_, _) | Service::Delay | Service::Cycle | Service::Restart => {}
        }
        Ok(names)
    }
}
