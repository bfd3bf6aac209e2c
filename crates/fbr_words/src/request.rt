//! What the program is asked for.

ghost use Rattle.std.specs.Prelude.{◌≡◌, ◌≤◌, IfSome, codes, option_map};
ghost use Rattle.clap.specs.Words.{first_of, found_of, rows_of};
ghost use Rattle.fbr_words.specs.Program as program;
ghost use Rattle.fbr_words.specs.Requests.{asked_of};

use crate::bound::{Bound, bound_in};
use crate::check::{Check, check_in};
use crate::given::given;
use crate::pack::{Pack, pack_in};
use crate::play::{Play, play_in};
use crate::replay::{Replay, replay_in};
use crate::serve::{Serve, serve_in};
use crate::shown::{Draw, Explain, draw_in, explain_in};
use crate::sim::{Sim, sim_in};
use crate::time::{Time, time_in};
use clap::ArgMatches;
use fbr_texts::Meant;

/// A command with all that its words say.
#[derive(Drop)]
pub enum Request<'a> {
    /// Finds a certificate.
    Bound(Bound<'a>),
    /// Checks one.
    Check(Check<'a>),
    /// Runs a script on a world of devices.
    Sim(Sim<'a>),
    /// Plays stories on a world of devices.
    Play(Play<'a>),
    /// Tells people of a verdict, or of a number.
    Explain(Explain<'a>),
    /// Draws a system or a chart.
    Draw(Draw<'a>),
    /// Runs a device.
    Serve(Serve<'a>),
    /// Takes the turns of a record again.
    Replay(Replay<'a>),
    /// Writes the text that an application is.
    Pack(Pack<'a>),
    /// Tells how long events take.
    Time(Time<'a>),
    /// Makes a key, and begins the state of this file, where one is named.
    Key(Option<&'a str>),
}

fn bound<'a>(words: &ArgMatches<'a>) -> Option<Request<'a>>
    ensures asked { option_map asked_of result ≡ option_map program.a_bound (program.sought_in (rows_of (found_of words.now))) }
    ensures some { IfSome result (λ r. IfSome (program.often_of (asked_of r)) (λ n. 1 ≤ n)) }
{
    Some(Request::Bound(bound_in(words)?))
}

fn check<'a>(words: &ArgMatches<'a>) -> Option<Request<'a>>
    ensures { option_map asked_of result ≡ option_map program.a_check (program.checking_in (rows_of (found_of words.now))) }
{
    Some(Request::Check(check_in(words)?))
}

fn sim<'a>(words: &ArgMatches<'a>) -> Option<Request<'a>>
    ensures { option_map asked_of result ≡ option_map program.a_sim (program.simulating_in (rows_of (found_of words.now))) }
{
    Some(Request::Sim(sim_in(words)?))
}

fn play<'a>(words: &ArgMatches<'a>) -> Option<Request<'a>>
    ensures { option_map asked_of result ≡ option_map program.a_play (program.plays_in (rows_of (found_of words.now))) }
{
    Some(Request::Play(play_in(words)?))
}

fn explain<'a>(words: &ArgMatches<'a>) -> Option<Request<'a>>
    ensures asked { option_map asked_of result ≡ option_map program.an_explain (program.question_in (rows_of (found_of words.now))) }
    ensures some { IfSome result (λ r. IfSome (program.often_of (asked_of r)) (λ n. 1 ≤ n)) }
{
    Some(Request::Explain(explain_in(words)?))
}

fn draw<'a>(words: &ArgMatches<'a>) -> Option<Request<'a>>
    ensures asked { option_map asked_of result ≡ option_map program.a_draw (program.drawing_in (rows_of (found_of words.now))) }
    ensures some { IfSome result (λ r. IfSome (program.often_of (asked_of r)) (λ n. 1 ≤ n)) }
{
    Some(Request::Draw(draw_in(words)?))
}

fn serve<'a>(words: &ArgMatches<'a>) -> Option<Request<'a>>
    ensures asked { option_map asked_of result ≡ option_map program.a_serve (program.service_in (rows_of (found_of words.now))) }
    ensures some { IfSome result (λ r. IfSome (program.often_of (asked_of r)) (λ n. 1 ≤ n)) }
{
    Some(Request::Serve(serve_in(words)?))
}

fn replay<'a>(words: &ArgMatches<'a>) -> Option<Request<'a>>
    ensures { option_map asked_of result ≡ option_map program.a_replay (program.replaying_in (rows_of (found_of words.now))) }
{
    Some(Request::Replay(replay_in(words)?))
}

fn pack<'a>(words: &ArgMatches<'a>) -> Option<Request<'a>>
    ensures { option_map asked_of result ≡ option_map program.a_pack (program.packing_in (rows_of (found_of words.now))) }
{
    Some(Request::Pack(pack_in(words)?))
}

fn time<'a>(words: &ArgMatches<'a>) -> Option<Request<'a>>
    ensures { option_map asked_of result ≡ option_map program.a_time (program.timing_in (rows_of (found_of words.now))) }
{
    Some(Request::Time(time_in(words)?))
}

fn key<'a>(words: &ArgMatches<'a>) -> Request<'a>
    ensures { asked_of result ≡ program.a_key (first_of (codes "state") (rows_of (found_of words.now))) }
{
    Request::Key(given(words, "state"))
}

/// What a subcommand of this name asks for with its words; `None` where a number or an address is none.
pub fn request_in<'a>(name: &str, words: &ArgMatches<'a>) -> Option<Request<'a>>
    ensures asked { option_map asked_of result ≡ program.request_in (name.now, rows_of (found_of words.now)) }
    ensures some { IfSome result (λ r. IfSome (program.often_of (asked_of r)) (λ n. 1 ≤ n)) }
{
    if name == "bound" {
        bound(words)
    } else if name == "check" {
        check(words)
    } else if name == "sim" {
        sim(words)
    } else if name == "play" {
        play(words)
    } else if name == "explain" {
        explain(words)
    } else if name == "draw" {
        draw(words)
    } else if name == "serve" {
        serve(words)
    } else if name == "replay" {
        replay(words)
    } else if name == "pack" {
        pack(words)
    } else if name == "time" {
        time(words)
    } else if name == "key" {
        Some(key(words))
    } else {
        None
    }
}

// A request of the text that is meant.
fn over<'a>(request: Request<'a>, meant: Meant<'a>) -> Request<'a>
    ensures { asked_of result ≡ program.over meant.entry.text.now (asked_of request.entry) }
{
    match request {
        Request::Sim(mut sim) => {
            sim.meant = Some(meant);
            Request::Sim(sim)
        }
        Request::Play(mut play) => {
            play.meant = Some(meant);
            Request::Play(play)
        }
        Request::Serve(mut serve) => {
            serve.meant = Some(meant);
            Request::Serve(serve)
        }
        Request::Replay(mut replay) => {
            replay.meant = Some(meant);
            Request::Replay(replay)
        }
        Request::Bound(mut bound) => {
            bound.meant = Some(meant);
            Request::Bound(bound)
        }
        Request::Check(mut check) => {
            check.meant = Some(meant);
            Request::Check(check)
        }
        Request::Explain(mut explain) => {
            explain.meant = Some(meant);
            Request::Explain(explain)
        }
        Request::Draw(mut draw) => {
            draw.meant = Some(meant);
            Request::Draw(draw)
        }
        Request::Pack(mut pack) => {
            pack.meant = Some(meant);
            Request::Pack(pack)
        }
        Request::Time(mut time) => {
            time.meant = Some(meant);
            Request::Time(time)
        }
        Request::Key(state) => Request::Key(state),
    }
}

impl<'a> Request<'a> {
    /// The file of the application, or the number that is explained; a key has none.
    pub fn app(&self) -> &'a str
        ensures { result.now ≡ program.app_of (asked_of self.now) }
    {
        match self {
            Request::Bound(request) => request.app,
            Request::Check(request) => request.app,
            Request::Sim(request) => request.app,
            Request::Play(request) => request.app,
            Request::Explain(request) => request.what,
            Request::Draw(request) => request.app,
            Request::Serve(request) => request.app,
            Request::Replay(request) => request.app,
            Request::Pack(request) => request.app,
            Request::Time(request) => request.app,
            Request::Key(_) => "",
        }
    }

    /// The same of the text that is meant by the application.
    pub fn over(self, meant: Meant<'a>) -> Request<'a>
        ensures { asked_of result ≡ program.over meant.entry.text.now (asked_of self.entry) }
    {
        over(self, meant)
    }
}
