//! What other tools have and this language has not, and what stands in its place.

use crate::tokens::{mark_of, name_of};
use fb_lex::{Kind, Token};
use fb_words::Mark;

/// That a text is XML.
pub const XML: &str =
    "this is XML, as IEC 61499-2 has it: read it with `tools/fbr-import`; this language is the text form, with FUNCTION_BLOCK and SYSTEM";

/// How a comment is written.
pub const COMMENT: &str = "there is no `//`: write a comment as `(* .. *)`";

/// What a TIME is.
pub const TIMES: &str =
    "this is not a TIME: write whole numbers of d, h, m, s and ms in this order, each at most once, as T#1m_30s";

// Words, and what there is to say of them, a line each.
const WORDS: &str =
    "REAL LREAL FLOAT DOUBLE: there are no REAL numbers: count in a smaller unit, as tenths of a degree in an INT
BYTE WORD DWORD LWORD: there are no bit strings: take a BOOL for each bit, or USINT, UINT, UDINT for a number
STRING WSTRING CHAR WCHAR: there are no strings: send numbers, and let the other end word them
INTEGER LONG SHORT: there is no type of this name: take SINT, INT, DINT or LINT, or USINT, UINT or UDINT
BOOLEAN: there is no BOOLEAN: write BOOL
DIV: there is no DIV: write `/`, which divides integers
ULINT: there is no ULINT: take LINT, which is up to 9223372036854775807
WHILE REPEAT UNTIL: there is no WHILE and no REPEAT: count between bounds by a FOR; let a state wait for events, or ask again by an E_CYCLE
EXIT CONTINUE RETURN: there is no EXIT, CONTINUE or RETURN: put what follows into an IF
SEL MUX: there is no SEL and no MUX: write IF .. THEN .. ELSE, or CASE
TON TOF TP: there is no TON, TOF or TP: take an instance of E_DELAY, which emits EO a time DT after START, and which STOP disarms
R_TRIG F_TRIG E_R_TRIG E_F_TRIG: there is no trigger on an edge: keep the last value in a variable, and compare, as `IF X AND NOT LAST THEN`, then `LAST := X;`
CTU CTD CTUD: there is no CTU, CTD or CTUD: take an instance of E_CTU, which counts events, or count by a variable in an algorithm
SR RS E_RS: there is no SR and no RS: take an instance of E_SR, whose S sets Q and whose R clears it
E_D_FF E_DEMUX E_REND E_TRAIN E_TABLE E_N_TABLE: this event block is not there beforehand: declare it in the text, as any other type
CLIENT SERVER: there is no CLIENT and no SERVER: take a PUBLISH and a SUBSCRIBE for each way
ADAPTER SOCKETS PLUGS: there are no adapters: connect their events and data one by one
VAR_TEMP VAR_IN_OUT VAR_GLOBAL VAR_EXTERNAL CONSTANT RETAIN: there are VAR_INPUT, VAR_OUTPUT and VAR alone: declare it in one of these; a VAR that no algorithm assigns is a constant
TYPE STRUCT ENUM: there are no types of one's own: declare a variable for each part, and count the values of an enumeration in a USINT
ELSEIF ELIF ELSE_IF: there is no ELSEIF: write ELSIF
AND_THEN OR_ELSE: both sides of AND and OR are evaluated: write two IFs, one in the other
PROGRAM FUNCTION METHOD CLASS: there is no PROGRAM and no FUNCTION: write a FUNCTION_BLOCK with a chart
APPLICATION SEGMENT LINK: applications are not mapped: declare instances in the RESOURCE that runs them
SHL SHR ROL ROR: there are no shifts: take `*`, `/` and MOD by powers of 2
SQRT EXP EXPT LN LOG SIN COS TAN TRUNC ROUND: this function is not there: calculate it by MIN, MAX, LIMIT, ABS and operators
DATE TOD LTIME: there are no dates: count milliseconds in a TIME, which is a duration";

/// What there is to say of a word.
pub fn foreign_word(word: &str) -> Option<&'static str> {
    for line in WORDS.split('\n') {
        if let Some((words, says)) = line.split_once(": ") {
            for each in words.split(' ') {
                if each == word {
                    return Some(says);
                }
            }
        }
    }
    None
}

/// What there is to say of a token that cannot stand behind these; `text` begins with it.
pub fn foreign_token(before: &[Token], found: Option<&Token>, text: &str) -> Option<&'static str> {
    let last = before.last();
    let second = before.get(before.len().saturating_sub(2));
    match (mark_of(found), mark_of(last)) {
        (Some(Mark::Slash), _) if text.starts_with("//") => Some(COMMENT),
        (Some(Mark::Star), Some(Mark::Star)) => Some("there is no `**`: write `X * X`"),
        (Some(Mark::Assign), Some(_)) if matches!(mark_of(second), Some(Mark::Of)) => Some(
            "an array has no start values: let an algorithm fill it; its elements start at 0",
        ),
        (Some(Mark::Dot), None) if is_number(last) => {
            Some("there are no fractions: count in a smaller unit")
        }
        _ => match foreign_word(name_of(found).unwrap_or("")) {
            Some(says) => Some(says),
            None => foreign_word(name_of(last).unwrap_or("")),
        },
    }
}

// Whether a token is a number without a type.
fn is_number(token: Option<&Token>) -> bool {
    match token {
        Some(found) => matches!(&found.kind, Kind::Number(_)),
        None => false,
    }
}

/// What there is to say of a whole text that is another kind of text.
pub fn foreign_text(text: &str) -> Option<&'static str> {
    let begins = text.trim_start();
    if begins.starts_with('<') {
        return Some(XML);
    }
    if begins.starts_with("CERT ") {
        return Some(
            "this is the text of a certificate: name the application first, as `fbr explain APP CERT`",
        );
    }
    None
}
