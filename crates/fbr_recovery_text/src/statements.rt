//! Reading of algorithms, statement by statement.

use crate::reader::{Reader, stopped_in};
use fb_read::{Stop, read_name};
use fb_text::Item;
use fb_tree::{AlgorithmTree, Name, Stmt};
use fb_words::Mark;
use fbr_advice::tokens::{mark_of, name_of};
use fbr_recovery_found::Found;
use st_parse::body;
use std::alloc::AllocError;

impl<'t> Reader<'t> {
    // The number of the token behind the next one that begins or ends a part of the declaration.
    fn part_behind(self) -> usize {
        let mut ahead = self;
        ahead.pass();
        for _ in self.at..self.end {
            if ahead.is_between() {
                break;
            }
            ahead.pass();
        }
        ahead.at
    }

    // The number of the token behind a statement that begins at the next one.
    fn statement_end(&self, close: usize) -> usize {
        let mut open: usize = 0;
        for (step, token) in self.between(self.at, close).iter().enumerate() {
            match mark_of(Some(token)) {
                Some(Mark::If | Mark::Case | Mark::For) => open = open.saturating_add(1),
                Some(Mark::EndIf | Mark::EndCase | Mark::EndFor) => {
                    open = open.saturating_sub(1);
                }
                Some(Mark::Semicolon) if open == 0 => {
                    return self.at.saturating_add(step).saturating_add(1);
                }
                _ => {}
            }
        }
        close
    }

    // The statements up to a token, each read by itself.
    fn statements(&mut self, close: usize, found: &mut Found<'_>) -> Result<Vec<Stmt>, AllocError> {
        let mut statements = Vec::new(self.alloc);
        for _ in self.at..close {
            if self.at >= close {
                break;
            }
            let to = self.statement_end(close);
            match body(self.alloc, self.between(self.at, to)) {
                Ok((mut one, rest)) => {
                    statements.append(&mut one)?;
                    if !rest.is_empty() {
                        let index = to.saturating_sub(rest.len());
                        self.tell_statement(index, 2, found)?;
                    }
                }
                Err(stop) => {
                    let (index, code) = stopped_in(to, stop)?;
                    self.tell_statement(index, code, found)?;
                }
            }
            self.at = to;
        }
        Ok(statements)
    }

    // Tells where reading a statement stopped. What closes a statement behind another fault may be right.
    fn tell_statement(
        &mut self,
        index: usize,
        code: u8,
        found: &mut Found<'_>,
    ) -> Result<(), AllocError> {
        let is_closer = matches!(
            self.next(),
            Some(Mark::EndIf | Mark::EndCase | Mark::EndFor | Mark::Else | Mark::Elsif)
        );
        if !(self.is_lost && is_closer) {
            self.tell(self.at, index, code, found)?;
        }
        self.is_lost = true;
        Ok(())
    }

    // Whether these words and a colon are next, and goes behind them.
    fn begins_text(&mut self) -> bool {
        for word in ["IN", "ST"] {
            match name_of(self.rest().first()) {
                Some(name) if name == word => self.pass(),
                _ => return false,
            }
        }
        let is_colon = self.next() == Some(Mark::Colon);
        if is_colon {
            self.pass();
        }
        is_colon
    }

    // An algorithm of this name that begins at a token, of which statements are left out that cannot be read.
    fn algorithm_named(
        &mut self,
        name: Name,
        from: usize,
        close: usize,
        found: &mut Found<'_>,
    ) -> Result<AlgorithmTree, AllocError> {
        let mut body = Vec::new(self.alloc);
        if self.begins_text() {
            body = self.statements(close, found)?;
        } else {
            self.tell(from, self.at, 2, found)?;
            // The name may be missing, and IN is read for it.
            found.is_nameless = true;
            self.is_lost = true;
        }
        Ok(AlgorithmTree { name, body })
    }

    // An algorithm that is not whole; nothing where it has no name.
    fn broken_algorithm(
        &mut self,
        found: &mut Found<'_>,
    ) -> Result<Option<AlgorithmTree>, AllocError> {
        let from = self.at;
        let close = self.part_behind();
        self.pass();
        let algorithm = match read_name(self.between(self.at, close)) {
            Ok((name, _)) => {
                self.pass();
                Some(self.algorithm_named(name, from, close, found)?)
            }
            Err(Stop::Memory) => return Err(AllocError),
            Err(_) => {
                self.tell(from, self.at, 2, found)?;
                found.doubt_all(from, close)?;
                found.is_nameless = true;
                self.is_lost = true;
                None
            }
        };
        self.at = close;
        if self.next() == Some(Mark::EndAlgorithm) {
            self.pass();
            self.is_lost = false;
        } else {
            self.tell_here(found)?;
        }
        Ok(algorithm)
    }

    /// The algorithm that is next; nothing where it has no name.
    pub(crate) fn algorithm(
        &mut self,
        found: &mut Found<'_>,
    ) -> Result<Option<AlgorithmTree>, AllocError> {
        match AlgorithmTree::read(self.alloc, self.rest()) {
            Ok((algorithm, rest)) => {
                self.at = self.end.saturating_sub(rest.len());
                Ok(Some(algorithm))
            }
            Err(Stop::Memory) => Err(AllocError),
            Err(_) => self.broken_algorithm(found),
        }
    }
}
