//! What services take and give.

ghost use Rattle.std.specs.Prelude.{◌≡◌, ◌++◌, ℕ, codes, map};
ghost use Rattle.std.specs.Option.{option_map};
ghost use Rattle.std.specs.Str.{bytes_eq};
ghost use Rattle.fb_model.specs.Names.{is_in};
ghost use Rattle.fb_model.specs.NetworkTyping.{variable_named};
ghost use Rattle.fb_model.specs.Services.{digits, ports, received, sent, service_inputs, service_outputs, service_event_inputs, service_event_outputs};
ghost use Rattle.fb_types_services.specs.Views.{service_of, typed_as};

use crate::points::{DT, QI, QO, RD, SD};
use crate::service::Service;
use fb_words::ElemType;

// Whether a text is a number below 100 in digits.
fn is_number(text: &str, number: usize) -> bool
    ensures { result ≡ bytes_eq text.now (digits number) }
{
    match text.as_bytes() {
        [ones] => number < 10 && *ones as usize == 48 + number,
        [tens, ones] => {
            number >= 10 && *tens as usize == 48 + number / 10 && *ones as usize == 48 + number % 10
        }
        _ => false,
    }
}

// The type of a port, by the types of the ports and what their names begin with: they are numbered from 1 on.
fn port(types: &[ElemType], prefix: &str, name: &str) -> Option<ElemType>
    ensures { typed_as result (variable_named (ports (λ n. prefix.now ++ digits n) 1 types.now) name.now) }
{
    let number = name.strip_prefix(prefix)?;
    for (index, of) in types.iter().enumerate() {
        if is_number(number, index + 1) {
            return Some(*of);
        }
    }
    None
}

// Whether this name is in a list.
fn lists(names: &[&str], name: &str) -> bool
    ensures { result ≡ is_in name.now (map (λ s. s.now) names.now) }
{
    for one in names {
        if name == *one {
            return true;
        }
    }
    false
}

impl Service {
    /// Whether the service has an event input of this name.
    pub fn has_event_input(&self, name: &str) -> bool
        ensures { result ≡ is_in name.now (service_event_inputs (service_of self.now)) }
    {
        lists(self.event_inputs(), name)
    }

    /// Whether the service has an event output of this name.
    pub fn has_event_output(&self, name: &str) -> bool
        ensures { result ≡ is_in name.now (service_event_outputs (service_of self.now)) }
    {
        lists(self.event_outputs(), name)
    }

    /// The type of the data input of this name.
    pub fn input(&self, name: &str) -> Option<ElemType>
        ensures { typed_as result (variable_named (service_inputs (service_of self.now)) name.now) }
    {
        match self {
            Service::Input(_, _) | Service::Restart => None,
            Service::Output(_, types) => port(types, SD, name),
            Service::Publish(_, types) => {
                if name == QI {
                    Some(ElemType::Bool)
                } else {
                    port(types, SD, name)
                }
            }
            Service::Subscribe(_, _) => (name == QI).then_some(ElemType::Bool),
            Service::Delay | Service::Cycle => (name == DT).then_some(ElemType::Time),
        }
    }

    /// The type of the data output of this name.
    pub fn output(&self, name: &str) -> Option<ElemType>
        ensures { typed_as result (variable_named (service_outputs (service_of self.now)) name.now) }
    {
        match self {
            Service::Input(_, types) => port(types, RD, name),
            Service::Publish(_, _) => (name == QO).then_some(ElemType::Bool),
            Service::Subscribe(_, types) => {
                if name == QO {
                    Some(ElemType::Bool)
                } else {
                    port(types, RD, name)
                }
            }
            Service::Output(_, _) | Service::Delay | Service::Cycle | Service::Restart => None,
        }
    }
}
