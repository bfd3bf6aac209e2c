//! What each number says, and what to do: made of the tables of `docs/REFUSALS.md` by `dev/refusals.py`.

/// What a number says, and what to do about it, which is empty where there is nothing.
#[derive(Clone, Copy)]
pub struct Meaning {
    pub says: &'static str,
    pub remedy: &'static str,
}

// That this is said, and this is to be done.
fn said(says: &'static str, remedy: &'static str) -> Option<Meaning> {
    Some(Meaning { says, remedy })
}

/// What a refusal or denial of this number says. Nothing where no number of these is this one.
pub fn meaning_of(code: u8) -> Option<Meaning> {
    match code {
        1 => said(
            "no token begins with this character, or the comment that begins here is not closed",
            "remove the character, close the comment with `*)`",
        ),
        2 => said(
            "this token cannot stand here, or the text ends too soon (the text's length)",
            "look at what stands before the offset: often a missing `;` or END word",
        ),
        3 => said(
            "this token opens one nesting too many: expressions nest 64 deep (brackets, calls, signs), statements 32",
            "name a part, or flatten the statement",
        ),
        4 => said(
            "the application has more than 1,048,576 bytes, or the certificate more than 16,777,216",
            "split the application",
        ),
        5 => said(
            "a number above 18446744073709551615, or a TIME above 9223372036854775807 milliseconds",
            "write a smaller number",
        ),
        9 => said("memory ran out", "give the process more memory"),
        10 => said(
            "this name stands for nothing here",
            "declare it, or mend the spelling",
        ),
        11 => said("this name is taken (the later one is named)", "rename one"),
        12 => said(
            "the expression's type is not the one that is asked for here; a condition and a guard give a number without a type none, so it is no BOOL there; of a data connection (at its TO) the output's type is not that of the input and does not widen to it",
            "compare, as `X + 1 > 0`; for a truth value write TRUE or FALSE",
        ),
        13 => said(
            "this literal does not fit its type",
            "write a smaller number, or widen the type",
        ),
        14 => said(
            "this variable cannot be assigned here: an input, or a FOR's own variable in its body",
            "assign a VAR or a VAR_OUTPUT",
        ),
        15 => said(
            "the ends of the connection do not go together",
            "connect an output to an input",
        ),
        16 => said("what this gives a value has one already", "remove one"),
        17 => said(
            "a service without its number, with a wrong one, or with one that is taken; a PUBLISH or SUBSCRIBE whose FORMAT is neither 1 nor 2, or is given twice",
            "give `ID := n`, 0 to 65535, each once in a device for INPUTs, and for OUTPUTs; give `FORMAT := 1` or `FORMAT := 2`, or leave it out for 1",
        ),
        18 => said(
            "this composite contains itself, through however many others",
            "break the circle",
        ),
        19 => said(
            "this declaration is one too many: 64 event inputs or outputs, 256 states, 1,024 transitions of a block, 1,024 instances and 8,192 followed connections of a resource; 1,024 elements of an array, 256 algorithms, composites 16 deep, 16 value types of a service, 16 resources of a device, 16 devices",
            "split the application",
        ),
        20 => said(
            "the ends of this channel have other value types, or another format; it is of format 2 and has a PUBLISH already, in whichever device; or this device has a SUBSCRIBE of it already",
            "give both the same; for two senders take format 1, or two channels",
        ),
        21 => said(
            "the system has no device of this name (`fbr serve`, and calls of the library; in a script it is 60)",
            "give the name of one of its devices",
        ),
        30 => said(
            "this line of the certificate is no row",
            "steps 0 to 10^12, places 0 to 4,096, depth 1 to 4,096, REPEATS 1 to 255, a channel 0 to 65,535; of a RANGE two numbers of LINT, the second no less than the first",
        ),
        31 => said("this row repeats an earlier one", "remove one"),
        32 => said(
            "the certificate has a row for a place that the system has not, or for a channel that no PUBLISH or SUBSCRIBE names; or a row FAR, FARSTATE or CHANNEL without a row REPEATS",
            "remove the row, or mend its path; add `REPEATS r`",
        ),
        33 => said(
            "the system has this place or channel, and the certificate has no row for it",
            "add the row, or remove REPEATS",
        ),
        34 => said(
            "its RANGE row is not within its type, or its start value is outside the row; for an input that nothing is connected to, the constant that it holds",
            "widen the row, or give another start value or parameter",
        ),
        35 => said(
            "what is connected to it may be outside its row",
            "widen the input's row, or narrow the output's",
        ),
        36 => said(
            "it may leave a variable outside its row: at its end, around a turn of a FOR, or with an element of an array",
            "bring the value into the row, as with `IF CV < 9`, MIN or LIMIT; or widen the row",
        ),
        37 => said(
            "it may divide by 0, or index outside an array",
            "test the divisor or the index before, or narrow its row",
        ),
        38 => said(
            "its charge is less than what its actions emit, or than a free transition from it needs",
            "raise the charge; if no charge is enough, the chart turns for ever",
        ),
        39 => said(
            "its weight is less than 1, than a dispatch, a crossing and the charge of the state that it leads to, or than what it emits weighs",
            "raise the weight",
        ),
        40 => said(
            "an arrival takes more places than the queue is deep, or all BEGIN of the resource together do",
            "raise the depth",
        ),
        41 => said(
            "with REPEATS: its FARSTATE or FAR is less than what it causes on all devices, by the rules of 38 and 39, where a PUBLISH.REQ also pays for its CHANNEL",
            "raise the number",
        ),
        42 => said(
            "with REPEATS r: its CHANNEL row is less than r times the FAR of the ARRIVE of all its SUBSCRIBE together; with format 2, which is admitted once, than their sum",
            "raise the number",
        ),
        43 => said(
            "an event may go round these places again: each of these states, events and (with `--repeats`) channels triggers the next, and one of them costs a step. The order in which charts go through their states is not looked at, so this also refuses a round that ends by itself, as that of a sequence which waits for its axis. No certificate fits, or with `--repeats` none with a row REPEATS",
            "break the cycle: let a transition wait for an event from outside, or do not lead the output back; or lead the event through an `E_DELAY(DT := T#0ms)`, which makes each round an event of its own (`examples/handshake`). A START while that delay is armed is swallowed, so use it for one confirm at a time: a client that asks twice at once waits for ever",
        ),
        44 => said(
            "under the ranges that variables can reach it may divide by 0, index past an array or leave the range of a variable",
            "test before (`IF D > 0 THEN`), or bound the number (`LIMIT`)",
        ),
        50 => said("the device has no INPUT of this number", ""),
        51 => said("another number of values than the INPUT has", ""),
        52 => said(
            "value i, counted from 1, does not fit its type: BOOL has 0 and 1; SINT -128 to 127, INT -32,768 to 32,767, DINT -2^31 to 2^31 - 1; USINT 0 to 255, UINT 0 to 65,535, UDINT 0 to 2^32 - 1",
            "",
        ),
        53 => said(
            "the arrival needs N places of the queue, and F are not held by causes that have not ended: dispatch, and offer again",
            "",
        ),
        54 => said("no cause number is left", ""),
        55 => said(
            "the bytes are no message; the first field that is not whole or not right is `Short`, `Magic` (they do not begin with `FB`), `Version`, `Kind`, `Count` (more than 16 values), `TypeCode` or `Value`, and `Trailing` says that something follows",
            "",
        ),
        56 => said("the device has no SUBSCRIBE of this channel", ""),
        57 => said(
            "the values are not as many as the block takes, or of other types, or the message is of the other format",
            "",
        ),
        58 => said("the SUBSCRIBE is closed: INIT with QI opens it", ""),
        59 => said(
            "a receive from the network failed, from `fbr serve`; what the device had printed stands before it",
            "start the device anew",
        ),
        60 => said(
            "this line of the script is no call, or names a device, a resource, a datagram or a root that is not there, or a number does not fit",
            "in a script compare the line with the five forms, `offer DEVICE INPUT VALUE ..`, `deliver DATAGRAM DEVICE`, `tick DEVICE MILLISECONDS`, `dispatch DEVICE RESOURCE` and `root NUMBER`: a word that is none of these five, too few words or too many, a number that is none; then its names with those of the text, and the numbers of datagrams and roots with those that were answered before. The lines before it have run. Standard error says which of these it was",
        ),
        61 => said(
            "not readable, no UTF-8, or more than 33,554,432 bytes",
            "of the files of `bound`, `check`, `explain` and `draw` one may be `-`, and no other; behind `-o` it is a file that can be written",
        ),
        62 => said(
            "nothing could be bound to this port, from `fbr serve`: another program has it",
            "take another port, or end the other program",
        ),
        63 => said(
            "the words are no command; `--repeats` or `--room` is given no number of 1 to 255; `--repeats` stands beside a certificate, which has a row REPEATS of its own; a file or `--repeats` stands beside a number that is explained; `fbr draw --chart` is given no basic block type of the text; an address of `fbr serve` is none, or has no port of 1 to 65535; it is given more than 64 peers or senders, a number that is too large, or a boot twice",
            "`fbr --help`",
        ),
        64 => said(
            "the message is not later than the one that was admitted last, which had this boot and sequence number: it came twice, or too late",
            "",
        ),
        _ => None,
    }
}

/// What 19 says of a resource for which no certificate is found.
pub fn found_limit() -> Meaning {
    Meaning {
        says: "a number of this resource, or the depth that its queue needs, is above what a certificate can say (10^12 steps, 4,096 places) whatever certificate with these ranges is taken; or the resource follows more than 8,192 connections",
        remedy: "let events branch less often, or in other resources",
    }
}
