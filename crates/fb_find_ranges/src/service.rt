//! The ranges of what services take and give.

ghost use Rattle.std.specs.Prelude.{◌≡◌};
ghost use Rattle.fb_model.specs.Wires.{Serviced};
ghost use Rattle.fb_model.specs.Ranges.{variables};
ghost use Rattle.fb_ranges_intervals.specs.Views.{span_of};
ghost use Rattle.fb_check_ranges.specs.Rows.{numbers_in, type_in};
ghost use Rattle.fb_types_services.specs.Views.{service_of};

use fb_ranges_intervals::{Interval, whole};
use fb_types_services::Service;
use fb_words::ElemType;

// The type of the data input or output of a name.
fn port_type(service: &Service, name: &str) -> Option<ElemType>
    ensures { result ≡ type_in (variables (Serviced (service_of service.now))) name.now }
{
    match service.input(name) {
        Some(of) => Some(of),
        None => service.output(name),
    }
}

/// All numbers of the type of a data input or output, and those of LINT where none has this name.
pub(crate) fn port_range(service: &Service, name: &str) -> Interval
    ensures { span_of result ≡ numbers_in (type_in (variables (Serviced (service_of service.now))) name.now) }
{
    match port_type(service, name) {
        Some(of) => whole(of),
        None => whole(ElemType::Lint),
    }
}
