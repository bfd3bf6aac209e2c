//! Texts that were read.

ghost use Rattle.std.specs.Prelude.{◌≡◌};
ghost use Rattle.fb_tree.specs.Files.{source_of};
ghost use Rattle.fb_model.specs.Sources.{IsSpelled};

use fb_tree::FileTree;
use std::marker::Model;

/// The source tree of a text. It stands in one: [`parse`](crate::parse) alone makes it.
#[derive(Drop)]
pub struct Source {
    pub(crate) tree: FileTree,
}

impl Model for Source {
    ghost use Rattle.fb_tree.specs.declared.tree.FileTree.{FileTree};
    ghost use Rattle.fb_tree.specs.Files.{source_of};
    ghost use Rattle.fb_model.specs.Sources.{IsSpelled};
    ghost use Rattle.fb_tree.specs.contracts.expression.Expr as expressions;
    ghost use Rattle.fb_tree.specs.contracts.statement.Stmt as statements;
    ghost use Rattle.std.specs.Coded.{codes};

    ghost Value = { FileTree };

    ghost coded = { Prim.hlevel (codes, expressions.the_row.coded, statements.the_row.coded) };

    ghost view = { λ s. s.tree };

    ghost invariant = { λ s. IsSpelled (source_of s.tree) };
}

impl Source {
    /// Its tree.
    pub fn tree(&self) -> &FileTree
        ensures { result.now ≡ self.now }
    {
        &self.tree
    }

    /// That it stands in a text, for proofs: nothing is done.
    pub fn stands_in_text(&self)
        ensures { IsSpelled (source_of self.now) }
    {
        let _ = &self.tree;
    }

    /// Lets the tree go. (A crate that lets a tree go by itself proves the end of each of its parts anew; this call is proved once.)
    pub fn let_go(self) {
        self.tree.let_go();
    }
}
