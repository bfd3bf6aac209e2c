//! All that words ask for: a command, and the files whose block types stand before its application.

ghost use Rattle.std.specs.Prelude.{◌≡◌, ◌≤◌, IfSome, option_map};
ghost use Rattle.clap.specs.Words.{rows_of, found_of};
ghost use Rattle.fbr_words.specs.Program as program;
ghost use Rattle.fbr_words.specs.Requests.{asked_of, order_of};

use crate::request::{Request, request_in};
use crate::watched::names_in;
use arrayvec::ArrayVec;
use clap::ArgMatches;

/// A command with all that its words say, and the files, 64 at most, whose block types stand before its application, in their order.
#[derive(Drop)]
pub struct Order<'a> {
    pub texts: ArrayVec<&'a str, 64>,
    pub request: Request<'a>,
}

/// What a subcommand of this name asks for with its words; `None` where a number or an address is none, or there are more than 64 files.
pub fn order_in<'a>(name: &str, words: &ArgMatches<'a>) -> Option<Order<'a>>
    ensures asked { option_map order_of result ≡ program.order_in (name.now, rows_of (found_of words.now)) }
    ensures some { IfSome result (λ o. IfSome (program.often_of (asked_of o.request)) (λ n. 1 ≤ n)) }
{
    Some(Order {
        texts: names_in(words, "with")?,
        request: request_in(name, words)?,
    })
}
