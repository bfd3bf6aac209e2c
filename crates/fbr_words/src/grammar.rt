//! The words that the program knows, as they are told to `clap`.

ghost use Rattle.std.specs.Prelude.{◌≡◌, false, true, IfOk};
ghost use Rattle.clap.specs.Words.{App, Rule, app_of, rule_of, with_rule, with_subcommand};
ghost use Rattle.fbr_words.specs.Program as program;

use clap::{Arg, ArgAction, Command};
use std::alloc::{AllocError, Global};

/// The version that `fbr --version` tells.
pub const VERSION: &str = "0.1.0";

// A file that has to be named.
fn file<'a>(alloc: Global, id: &'a str, help: &'a str) -> Arg<'a>
    ensures rule { rule_of result ≡ program.file id.now }
    ensures local { result.global ≡ false }
{
    Arg::new(alloc, id).required(true).help(help)
}

// A file that may be named.
fn maybe_file<'a>(alloc: Global, id: &'a str, help: &'a str) -> Arg<'a>
    ensures rule { rule_of result ≡ program.maybe_file id.now }
    ensures local { result.global ≡ false }
{
    Arg::new(alloc, id).help(help)
}

// A command with one argument more, where there is one.
fn with<'a>(
    command: Result<Command<'a>, AllocError>,
    arg: Arg<'a>,
) -> Result<Command<'a>, AllocError>
    ensures { (app : App) (rule : Rule) → IfOk command.entry (λ c. app_of c ≡ app) → rule_of arg.entry ≡ rule → arg.entry.global ≡ false → IfOk result (λ c. app_of c ≡ with_rule app rule) }
{
    match command {
        Ok(command) => command.arg(arg),
        Err(fault) => Err(fault),
    }
}

// A command with one subcommand more, where there are both.
fn with_command<'a>(
    command: Result<Command<'a>, AllocError>,
    sub: Result<Command<'a>, AllocError>,
) -> Result<Command<'a>, AllocError>
    ensures { (app own : App) → IfOk command.entry (λ c. app_of c ≡ app) → IfOk sub.entry (λ c. app_of c ≡ own) → own.top.is_plain ≡ true → IfOk result (λ c. app_of c ≡ with_subcommand app own.top) }
{
    match command {
        Ok(command) => match sub {
            Ok(sub) => command.subcommand(sub),
            Err(fault) => Err(fault),
        },
        Err(fault) => Err(fault),
    }
}

// An option that may be given again, each time with a value.
fn repeated<'a>(alloc: Global, id: &'a str, value: &'a str, help: &'a str) -> Arg<'a>
    ensures rule { rule_of result ≡ program.repeated id.now }
    ensures local { result.global ≡ false }
{
    Arg::new(alloc, id)
        .long(id)
        .action(ArgAction::Append)
        .value_name(value)
        .help(help)
}

// A subcommand that wants a file, of which help says this, and takes files of block types before it.
fn over_named<'a>(
    alloc: Global,
    name: &'a str,
    about: &'a str,
    help: &'a str,
) -> Result<Command<'a>, AllocError>
    ensures { IfOk result (λ c. app_of c ≡ program.over_file name.now) }
{
    let help_with =
        "Puts the block types of this file before the application; may be given again, at most 64 times";
    let alone = Command::new(alloc, name)
        .about(about)
        .arg(file(alloc, "APP", help));
    with(alone, repeated(alloc, "with", "FILE", help_with))
}

// A subcommand that wants the file of an application.
fn over_file<'a>(alloc: Global, name: &'a str, about: &'a str) -> Result<Command<'a>, AllocError>
    ensures { IfOk result (λ c. app_of c ≡ program.over_file name.now) }
{
    over_named(alloc, name, about, "The application's text")
}

// A subcommand that wants two files.
fn over_files<'a>(alloc: Global, name: &'a str, about: &'a str) -> Result<Command<'a>, AllocError>
    ensures { IfOk result (λ c. app_of c ≡ program.over_files name.now) }
{
    with(
        over_file(alloc, name, about),
        file(alloc, "CERT", "The certificate's text"),
    )
}

// Files, as many as are named.
fn files<'a>(alloc: Global, id: &'a str, help: &'a str) -> Arg<'a>
    ensures rule { rule_of result ≡ program.files id.now }
    ensures local { result.global ≡ false }
{
    Arg::new(alloc, id)
        .required(true)
        .action(ArgAction::Append)
        .num_args(1..)
        .help(help)
}

// The option `--repeats`.
fn repeats<'a>(alloc: Global) -> Arg<'a>
    ensures rule { rule_of result ≡ program.repeats }
    ensures local { result.global ≡ false }
{
    let help =
        "Bounds the steps on all devices too, if each datagram is delivered at most R times to a device (1 to 255)";
    Arg::new(alloc, "repeats")
        .long("repeats")
        .action(ArgAction::Set)
        .value_name("R")
        .help(help)
}

// The option `-o`.
fn output<'a>(alloc: Global) -> Arg<'a>
    ensures rule { rule_of result ≡ program.output }
    ensures local { result.global ≡ false }
{
    Arg::new(alloc, "output")
        .long("output")
        .short('o')
        .action(ArgAction::Set)
        .value_name("FILE")
        .help("Writes into this file instead of standard output, if nothing is refused")
}

// The option `--ranges`.
fn ranges<'a>(alloc: Global) -> Arg<'a>
    ensures rule { rule_of result ≡ program.ranges }
    ensures local { result.global ≡ false }
{
    Arg::new(alloc, "ranges")
        .long("ranges")
        .action(ArgAction::Set)
        .value_name("FILE")
        .help(
            "Keeps the rows RANGE of this certificate, and looks for the other ranges as `--search` does",
        )
}

// The option `--search`.
fn search<'a>(alloc: Global) -> Arg<'a>
    ensures rule { rule_of result ≡ program.search }
    ensures local { result.global ≡ false }
{
    Arg::new(alloc, "search")
        .long("search")
        .action(ArgAction::SetTrue)
        .help("Tries harder if an index or a divisor is refused with 44: looks for narrower ranges")
}

// The option `--room`.
fn room<'a>(alloc: Global) -> Arg<'a>
    ensures rule { rule_of result ≡ program.room }
    ensures local { result.global ≡ false }
{
    let help =
        "Makes each queue deep enough for N arrivals of each kind at once, up to 4096 places (1 to 255)";
    Arg::new(alloc, "room")
        .long("room")
        .action(ArgAction::Set)
        .value_name("N")
        .help(help)
}

// The option `--json`.
fn json<'a>(alloc: Global) -> Arg<'a>
    ensures rule { rule_of result ≡ program.json }
    ensures local { result.global ≡ false }
{
    Arg::new(alloc, "json")
        .long("json")
        .action(ArgAction::SetTrue)
        .help("Prints JSON for programs, an object on a line, in place of text for people")
}

// The option `--strict`.
fn strict<'a>(alloc: Global) -> Arg<'a>
    ensures rule { rule_of result ≡ program.strict }
    ensures local { result.global ≡ false }
{
    Arg::new(alloc, "strict")
        .long("strict")
        .action(ArgAction::SetTrue)
        .help("Ends with status 1 if there are notes")
}

// The option `--allow`.
fn allow<'a>(alloc: Global) -> Arg<'a>
    ensures rule { rule_of result ≡ program.allow }
    ensures local { result.global ≡ false }
{
    Arg::new(alloc, "allow")
        .long("allow")
        .action(ArgAction::Set)
        .value_name("NAMES")
        .help("Silences the notes of these names, separated by commas")
}

// The option `--all`.
fn all<'a>(alloc: Global) -> Arg<'a>
    ensures rule { rule_of result ≡ program.every }
    ensures local { result.global ≡ false }
{
    Arg::new(alloc, "all")
        .long("all")
        .action(ArgAction::SetTrue)
        .help(
            "Tells all faults of the application's text, 100 at most, and not the first one alone",
        )
}

// The subcommand that finds certificates.
fn bound<'a>(alloc: Global) -> Result<Command<'a>, AllocError>
    ensures { IfOk result (λ c. app_of c ≡ program.bound) }
{
    let about = "Finds a certificate whose numbers are the least, and prints it";
    let counted = with(over_file(alloc, "bound", about), repeats(alloc));
    let written = with(counted, output(alloc));
    let ranged = with(written, ranges(alloc));
    let searched = with(ranged, search(alloc));
    let roomed = with(searched, room(alloc));
    let noted = with(roomed, strict(alloc));
    let allowed = with(noted, allow(alloc));
    let printed = with(allowed, json(alloc));
    with(printed, all(alloc))
}

// The subcommand that checks.
fn checked<'a>(alloc: Global) -> Result<Command<'a>, AllocError>
    ensures { IfOk result (λ c. app_of c ≡ program.check) }
{
    let about = "Checks that a certificate fits an application";
    let noted = with(over_files(alloc, "check", about), strict(alloc));
    let allowed = with(noted, allow(alloc));
    let printed = with(allowed, json(alloc));
    with(printed, all(alloc))
}

// The subcommand that explains.
fn explained<'a>(alloc: Global) -> Result<Command<'a>, AllocError>
    ensures { IfOk result (λ c. app_of c ≡ program.explain) }
{
    let about = "Explains the verdict over an application, or the number of a refusal";
    let help_app = "The application's text, or a number";
    let help_cert = "The certificate's text; without it the one that is found";
    let alone = over_named(alloc, "explain", about, help_app);
    let both = with(alone, maybe_file(alloc, "CERT", help_cert));
    let counted = with(both, repeats(alloc));
    let noted = with(counted, strict(alloc));
    let allowed = with(noted, allow(alloc));
    let printed = with(allowed, json(alloc));
    with(printed, all(alloc))
}

// The option `--flat`.
fn flat<'a>(alloc: Global) -> Arg<'a>
    ensures rule { rule_of result ≡ program.flat }
    ensures local { result.global ≡ false }
{
    Arg::new(alloc, "flat")
        .long("flat")
        .action(ArgAction::SetTrue)
        .help("Draws the blocks within composites without boxes around them")
}

// The option `--chart`.
fn chart<'a>(alloc: Global) -> Arg<'a>
    ensures rule { rule_of result ≡ program.chart }
    ensures local { result.global ≡ false }
{
    Arg::new(alloc, "chart")
        .long("chart")
        .action(ArgAction::Set)
        .value_name("TYPE")
        .help("Draws the execution control chart of this basic block type instead")
}

// The subcommand that draws.
fn drawn<'a>(alloc: Global) -> Result<Command<'a>, AllocError>
    ensures { IfOk result (λ c. app_of c ≡ program.draw) }
{
    let about = "Draws the system and its bounds, or a chart, as a graph in DOT for graphviz";
    let help_cert = "The certificate's text; without it the one that is found";
    let alone = over_file(alloc, "draw", about);
    let both = with(alone, maybe_file(alloc, "CERT", help_cert));
    let counted = with(both, repeats(alloc));
    let flattened = with(counted, flat(alloc));
    let charted = with(flattened, chart(alloc));
    with(charted, output(alloc))
}

// An option that takes a number, which help calls so.
fn number<'a>(alloc: Global, id: &'a str, value: &'a str, help: &'a str) -> Arg<'a>
    ensures rule { rule_of result ≡ program.number id.now }
    ensures local { result.global ≡ false }
{
    Arg::new(alloc, id)
        .long(id)
        .action(ArgAction::Set)
        .value_name(value)
        .help(help)
}

// The same, which has to be given.
fn needed_number<'a>(alloc: Global, id: &'a str, value: &'a str, help: &'a str) -> Arg<'a>
    ensures rule { rule_of result ≡ program.needed_number id.now }
    ensures local { result.global ≡ false }
{
    number(alloc, id, value, help).required(true)
}

// The addresses of peers.
fn peers<'a>(alloc: Global) -> Arg<'a>
    ensures rule { rule_of result ≡ program.peers }
    ensures local { result.global ≡ false }
{
    Arg::new(alloc, "PEER")
        .action(ArgAction::Append)
        .num_args(1..)
        .help("The addresses that it sends to, as PORT, ADDRESS:PORT or [ADDRESS]:PORT, at most 64")
}

// An option without a value.
fn set<'a>(alloc: Global, id: &'a str, help: &'a str) -> Arg<'a>
    ensures rule { rule_of result ≡ program.set id.now }
    ensures local { result.global ≡ false }
{
    Arg::new(alloc, id)
        .long(id)
        .action(ArgAction::SetTrue)
        .help(help)
}

// A command with what is watched, and the files into which that is written.
fn watched<'a>(
    alloc: Global,
    command: Result<Command<'a>, AllocError>,
) -> Result<Command<'a>, AllocError>
    ensures { (app : App) → IfOk command.entry (λ c. app_of c ≡ app) → IfOk result (λ c. app_of c ≡ program.watched_by app) }
{
    let help_watch =
        "Prints after each dispatch what has changed at this path: an instance, a variable or a resource, or `*` for all; may be given up to 64 times";
    let help_dump =
        "Writes into this file what has changed, as a value change dump, which GTKWave opens";
    let help_table = "Writes into this file what has changed, as a table of comma-separated values";
    let help_timeline = "Draws into this file what ran when, and how full the queues were, as SVG";
    let named = with(command, repeated(alloc, "watch", "PATH", help_watch));
    let dumped = with(named, number(alloc, "vcd", "FILE", help_dump));
    let listed = with(dumped, number(alloc, "csv", "FILE", help_table));
    with(listed, number(alloc, "timeline", "FILE", help_timeline))
}

// The subcommand that runs a script.
fn simulated<'a>(alloc: Global) -> Result<Command<'a>, AllocError>
    ensures { IfOk result (λ c. app_of c ≡ program.sim) }
{
    let about = "Checks two texts, and runs the script on standard input, line by line";
    let kept = watched(alloc, over_files(alloc, "sim", about));
    with(kept, json(alloc))
}

// The subcommand that plays stories.
fn played<'a>(alloc: Global) -> Result<Command<'a>, AllocError>
    ensures { IfOk result (λ c. app_of c ≡ program.play) }
{
    let about = "Plays stories of a plant, and reports what went another way";
    let help =
        "Stories, whose names end in .story, at most 64; the certificate's text may be given before them";
    let help_report = "Writes into this file how the sequences went, as JUnit XML";
    let named = with(over_file(alloc, "play", about), files(alloc, "STORY", help));
    let kept = watched(alloc, named);
    let reported = with(kept, number(alloc, "report", "FILE", help_report));
    with(reported, json(alloc))
}

// The subcommand that takes the turns of a record again.
fn replayed<'a>(alloc: Global) -> Result<Command<'a>, AllocError>
    ensures { IfOk result (λ c. app_of c ≡ program.replay) }
{
    let about = "Repeats the turns of a recorded device, and prints what its OUTPUTs write";
    let help_record = "The record that `serve` wrote; `-` is standard input";
    let help_verbose =
        "Reports each arrival, each dispatch, what is sent, and each cause that has ended on standard error";
    let help_clock = "Lines of OUTPUTs begin with the milliseconds of the device's clock";
    let both = over_files(alloc, "replay", about);
    let recorded = with(both, file(alloc, "RECORD", help_record));
    let told = with(recorded, set(alloc, "verbose", help_verbose));
    let timed = with(told, set(alloc, "clock", help_clock));
    let kept = watched(alloc, timed);
    with(kept, json(alloc))
}

// `serve` with what says where it receives, and from whom.
fn served_at<'a>(alloc: Global) -> Result<Command<'a>, AllocError>
    ensures { IfOk result (λ c. app_of c ≡ program.serve_at) }
{
    let about = "Runs a device over UDP, and prints what its OUTPUTs write";
    let help_device = "The name of the device";
    let help_bind =
        "Where it receives: PORT of 127.0.0.1, ADDRESS:PORT of IPv4, or [ADDRESS]:PORT of IPv6";
    let help_from = "Takes datagrams from this IP address only; may be given up to 64 times";
    let both = over_files(alloc, "serve", about);
    let device = with(both, file(alloc, "DEVICE", help_device));
    let bound = with(device, needed_number(alloc, "bind", "ADDRESS", help_bind));
    with(bound, repeated(alloc, "from", "ADDRESS", help_from))
}

// `serve` with what says how long it runs.
fn served_for<'a>(alloc: Global) -> Result<Command<'a>, AllocError>
    ensures { IfOk result (λ c. app_of c ≡ program.serve_for) }
{
    let help_turns =
        "Ends after so many turns: 16 datagrams are received at most, and each resource is dispatched once";
    let help_eof = "Ends when standard input ends";
    let help_boot =
        "The boot that its messages of format 2 are stamped with, 0 if none is given; let it grow with each start";
    let help_file =
        "Takes the boot from this file, and puts the next one there before anything is sent";
    let counted = with(served_at(alloc), number(alloc, "turns", "N", help_turns));
    let ended = with(counted, set(alloc, "until-eof", help_eof));
    let booted = with(ended, number(alloc, "boot", "B", help_boot));
    with(booted, number(alloc, "boot-file", "FILE", help_file))
}

// `serve` with what says where it is recorded.
fn served_by<'a>(alloc: Global) -> Result<Command<'a>, AllocError>
    ensures { IfOk result (λ c. app_of c ≡ program.serve_by) }
{
    let help_record =
        "Records in this new file what comes to the device, a line a turn, for `replay`";
    let help_sync = "Has each line of the record on the disk before the next turn";
    let recorded = with(
        served_for(alloc),
        number(alloc, "record", "FILE", help_record),
    );
    with(recorded, set(alloc, "sync", help_sync))
}

// `serve` with what says what is checked.
fn served_with<'a>(alloc: Global) -> Result<Command<'a>, AllocError>
    ensures { IfOk result (λ c. app_of c ≡ program.serve_with) }
{
    let help_keys =
        "Seals what it sends, and takes only what the devices of this file sealed, each datagram once";
    let help_state = "Holds the counters of sealed datagrams over restarts; `fbr key` begins it";
    let help_unsealed =
        "Checks nothing of what is received, at an address that others reach and without `--keys`";
    let keyed = with(served_by(alloc), number(alloc, "keys", "FILE", help_keys));
    let stated = with(keyed, number(alloc, "state", "FILE", help_state));
    with(stated, set(alloc, "unsealed", help_unsealed))
}

// The subcommand that makes a key.
fn keyed<'a>(alloc: Global) -> Result<Command<'a>, AllocError>
    ensures { IfOk result (λ c. app_of c ≡ program.key) }
{
    let about = "Prints a new key, of 64 hexadecimal digits, from the system's random source";
    let help_state =
        "Begins this new file too, in which a device's counters survive restarts; a new state goes with a new key";
    Command::new(alloc, "key")
        .about(about)
        .arg(number(alloc, "state", "FILE", help_state))
}

// The subcommand that runs a device over UDP.
fn served<'a>(alloc: Global) -> Result<Command<'a>, AllocError>
    ensures { IfOk result (λ c. app_of c ≡ program.serve) }
{
    let help_verbose =
        "Reports each arrival, each dispatch, what is sent, and each cause that has ended on standard error";
    let help_summary = "Prints the totals on standard error every N seconds";
    let help_clock = "Lines of OUTPUTs begin with the milliseconds of the device's clock";
    let help_strict = "Ends if a line cannot be written, instead of counting it";
    let told = with(served_with(alloc), set(alloc, "verbose", help_verbose));
    let summed = with(told, number(alloc, "summary", "N", help_summary));
    let timed = with(summed, set(alloc, "clock", help_clock));
    let ending = with(timed, set(alloc, "stop-on-lost-output", help_strict));
    with(ending, peers(alloc))
}

// The subcommand that writes the text of an application.
fn packed<'a>(alloc: Global) -> Result<Command<'a>, AllocError>
    ensures { IfOk result (λ c. app_of c ≡ program.pack) }
{
    let about = "Prints the one text that the application is with the block types of `--with`";
    with(over_file(alloc, "pack", about), output(alloc))
}

// The subcommand that times events.
fn timed<'a>(alloc: Global) -> Result<Command<'a>, AllocError>
    ensures { IfOk result (λ c. app_of c ≡ program.time) }
{
    let about = "Tells how many dispatches, how much work and how long each event takes at most";
    let help_prices = "The prices of this machine, as `fbr-calibrate` wrote them";
    let help_rate =
        "How often events come at most, as `PUMP.START=10/s,TANK.LEVEL=2/min`: tells the response beside these";
    let help_from = "The instance with the arrival from which a way is told";
    let help_to = "The instance to which it is told";
    let both = over_files(alloc, "time", about);
    let priced = with(both, number(alloc, "calibration", "FILE", help_prices));
    let rated = with(priced, number(alloc, "rate", "RATES", help_rate));
    let begun = with(rated, number(alloc, "from", "PATH", help_from));
    let ended = with(begun, number(alloc, "to", "PATH", help_to));
    with(ended, json(alloc))
}

/// All of them.
pub fn commands<'a>(alloc: Global) -> Result<Command<'a>, AllocError>
    ensures { IfOk result (λ c. app_of c ≡ program.program) }
{
    let top = Command::new(alloc, "fbr")
        .about("Proves bounds of function block applications before they run")
        .version(VERSION)
        .subcommand_required(true);
    let finds = with_command(Ok(top), bound(alloc));
    let checks = with_command(finds, checked(alloc));
    let runs = with_command(checks, simulated(alloc));
    let plays = with_command(runs, played(alloc));
    let explains = with_command(plays, explained(alloc));
    let draws = with_command(explains, drawn(alloc));
    let serves = with_command(draws, served(alloc));
    let replays = with_command(serves, replayed(alloc));
    let packs = with_command(replays, packed(alloc));
    let times = with_command(packs, timed(alloc));
    with_command(times, keyed(alloc))
}
