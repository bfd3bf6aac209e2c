//! Notes on transitions that are never taken: an earlier one of their state is always taken first.

use crate::noted::{NoteKind, Noting, Page};
use fb_lex::Token;
use fb_tree::{BlockTree, ChartTree, TransitionTree};
use fb_words::Mark;
use fbr_advice::tokens::{index_at, mark_of};
use fbr_places::Writing;
use indexmap::IndexSet;
use std::alloc::AllocError;

// What is asked of a transition: its event and its guard, or less.
#[derive(Clone, Copy)]
struct Condition<'a> {
    source: &'a str,
    event: &'a str,
    guard: &'a str,
}

// Writes the tokens of a guard up to its end, with a blank behind each.
fn put_guard(page: Page<'_>, tokens: &[Token], writing: &mut Writing) {
    let mut open: usize = 0;
    for token in tokens {
        match mark_of(Some(token)) {
            Some(Mark::LBracket) => open = open.saturating_add(1),
            Some(Mark::RBracket) => open = open.saturating_sub(1),
            _ => {}
        }
        writing.put(page.app.text.get(token.start..token.end).unwrap_or(""));
        writing.put(" ");
        if open == 0 {
            return;
        }
    }
}

// The guard of a transition as it is written, in capitals; empty where it has none.
fn guard_of(page: Page<'_>, transition: &TransitionTree) -> Result<String, AllocError> {
    let mut writing = Writing::new(page.alloc);
    if let Some(guard) = &transition.guard {
        let first = index_at(page.tokens, guard.at);
        let tokens = page.tokens.get(first..page.tokens.len()).unwrap_or(&[]);
        put_guard(page, tokens, &mut writing);
    }
    let text = writing.text()?;
    text.to_ascii_uppercase(page.alloc)
}

impl Condition<'_> {
    // It as a text.
    fn key(self, page: Page<'_>) -> Result<String, AllocError> {
        let mut writing = Writing::new(page.alloc);
        writing.put(self.source);
        writing.put(" ");
        writing.put(self.event);
        writing.put(" ");
        writing.put(self.guard);
        writing.text()
    }

    // Whether an earlier transition asks for exactly this.
    fn is_in(self, page: Page<'_>, earlier: &IndexSet<String>) -> Result<bool, AllocError> {
        let key = self.key(page)?;
        Ok(earlier.contains(key.as_str()))
    }

    // Why a transition is never taken, by those of its state that stand before it.
    fn shadow(
        self,
        page: Page<'_>,
        earlier: &IndexSet<String>,
    ) -> Result<Option<&'static str>, AllocError> {
        let always = Condition {
            event: "",
            guard: "",
            ..self
        };
        if always.is_in(page, earlier)? {
            return Ok(Some("one before it has no condition"));
        }
        let unguarded = Condition { guard: "", ..self };
        if unguarded.is_in(page, earlier)? {
            return Ok(Some("one before it takes the same event without a guard"));
        }
        let whenever = Condition { event: "", ..self };
        if whenever.is_in(page, earlier)? {
            return Ok(Some("one before it has the same guard and needs no event"));
        }
        if self.is_in(page, earlier)? {
            return Ok(Some("one before it has the same event and the same guard"));
        }
        Ok(None)
    }
}

/// Writes the notes on transitions of a chart that are never taken.
pub fn note_shadows(
    page: Page<'_>,
    block: &BlockTree,
    chart: &ChartTree,
    notes: &mut Noting,
) -> Result<(), AllocError> {
    let mut earlier = IndexSet::new(page.alloc);
    for transition in &chart.transitions {
        let guard = guard_of(page, transition)?;
        let own = Condition {
            source: transition.source.text.as_str(),
            event: match &transition.event {
                Some(event) => event.text.as_str(),
                None => "",
            },
            guard: guard.as_str(),
        };
        match own.shadow(page, &earlier)? {
            Some(why) => {
                notes.begin(NoteKind::TransitionNeverTaken, transition.source.at);
                notes.said().put("this transition of ");
                notes.said().put(block.name.text.as_str());
                notes.put(" is never taken: ", why, "", "");
            }
            None => {
                earlier.insert(own.key(page)?)?;
            }
        }
    }
    Ok(())
}
