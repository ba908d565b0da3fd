ghost use Rattle.std.specs.Prelude.{◌≡◌, None, option_map, is_some, slice_get, length};
ghost use Rattle.std.specs.Option.{option_copied};
ghost use Rattle.c_tree.specs.Nodes.{nodes, program_node};
ghost use Rattle.c_tree.specs.Passing.{pass_items};
ghost use Rattle.c_tree.specs.Progress.{pass};
ghost use Rattle.c_tree.specs.Search.{progress, seen};
ghost use Rattle.c_tree.specs.ProgramTree.{ProgramTree, IsPlaced, trees, close_at, is_function_at, file_name};

use crate::node::NodeRef;
use crate::search::Search;
use crate::tree::Item;
use crate::walk_items::search_items;
use base_core::{Lexeme, NodeId, Place};
use sqlite_items::Items;
use std::marker::Model;

/// A program: its items in order of the text, and where its parts stand. A contract sees it as a record of
/// `specs/ProgramTree.antt`.
#[derive(Drop)]
pub struct Program {
    items: Items<Item>,
    places: Items<Place>,
    closes: Items<Place>,
    end: Place,
    files: Items<Lexeme>,
}

impl Model for Program {
    ghost use Rattle.std.specs.Coded.{codes};
    ghost use Rattle.c_tree.specs.ProgramTree.{ProgramTree, IsPlaced};
    ghost use Rattle.c_tree.specs.contracts.tree.Item as item;

    ghost Value = { ProgramTree };

    ghost coded = { Prim.hlevel (codes, item.the_row.coded) };

    ghost view = { λ p. record { items = p.items; places = p.places; closes = p.closes; end = p.end; files = p.files } };

    ghost invariant = { λ p. IsPlaced (record { items = p.items; places = p.places; closes = p.closes; end = p.end; files = p.files }) };
}

impl Program {
    /// The program of these items. `places` has the place of each node's first token, in preorder; `closes` has the closing
    /// brace of each function, in order of the text; `end` is the end of the text; the first of `files` is file 1.
    pub fn new(
        items: Items<Item>,
        places: Items<Place>,
        closes: Items<Place>,
        end: Place,
        files: Items<Lexeme>,
    ) -> Self
        requires { IsPlaced (record { items = items; places = places; closes = closes; end = end; files = files }) }
        ensures { result ≡ record { items = items; places = places; closes = closes; end = end; files = files } }
    {
        Program {
            items,
            places,
            closes,
            end,
            files,
        }
    }

    /// Its items.
    pub fn items(&self) -> &Items<Item>
        ensures { result.now ≡ self.now.items }
    {
        &self.items
    }

    /// How many nodes it has.
    pub fn count(&self) -> u32
        ensures { result ≡ length (nodes (trees self.now)) }
    {
        self.places.len() as u32
    }

    /// The place of the first token of a node.
    pub fn place(&self, n: NodeId) -> Option<Place>
        ensures { result ≡ slice_get self.now.places n.0 }
    {
        self.places.get(n.0 as usize).copied()
    }

    /// The closing brace of a function; None exactly where the node is no function.
    pub fn close(&self, n: NodeId) -> Option<Place>
        ensures brace { result ≡ close_at self.now n.0 }
        ensures known { is_some result ≡ is_function_at self.now n.0 }
    {
        let search = self.search(n);
        match search.found {
            Some(node) => {
                if node.is_function() {
                    self.closes.get(search.functions as usize).copied()
                } else {
                    None
                }
            }
            None => None,
        }
    }

    /// The node of this number; None exactly from the number of nodes on. It goes through the tree, and stops behind the innermost
    /// statement or item that holds the node: a layer that asks often builds a table once.
    pub fn node(&self, n: NodeId) -> Option<NodeRef<'_>>
        ensures { option_map seen result ≡ slice_get (nodes (trees self.now)) n.0 }
    {
        let search = self.search(n);
        search.found
    }

    fn search(&self, n: NodeId) -> Search<'_>
        ensures { progress result ≡ pass_items pass (pass (record { left = n.0; functions = 0; found = None }) (program_node (trees self.now))) (trees self.now) }
    {
        let mut search = Search::new(n);
        search.pass(NodeRef::Program(self));
        search_items(self.items.as_slice(), &mut search);
        search
    }

    /// The name of a file of line markers; None for file 0, which the command names, and for numbers not given.
    pub fn file(&self, n: u32) -> Option<&str>
        ensures { option_copied result ≡ file_name self.now.files n }
    {
        if n == 0 {
            return None;
        }
        match self.files.get(n as usize - 1) {
            Some(name) => match str::from_utf8(name.as_bytes()) {
                Ok(text) => Some(text),
                Err(_) => None,
            },
            None => None,
        }
    }

    /// The end of the text.
    pub fn end(&self) -> Place
        ensures { result ≡ self.now.end }
    {
        self.end
    }
}
