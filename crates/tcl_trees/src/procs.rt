// The procedures of a script.

ghost use Rattle.std.specs.Prelude.{◌≡◌, [], ◌∷◌, ◌++◌, option_map, slice_get, OnOk, OnErr};
ghost use Rattle.std.specs.List.{find, position};
ghost use Rattle.std.specs.Str.{bytes_eq};
ghost use Rattle.tcl_trees.specs.Procedures.{place_named, procedure_named, procedure_view};
ghost use Rattle.tcl_trees.specs.Procedures.{procs_view};

use crate::node::Node;
use px_bytes::{M, Text};
use std::alloc::Global;
use std::marker::Model;

/// A parameter: its name, and its value where a call gives none.
#[derive(Drop)]
pub struct Parameter {
    pub name: Text,
    pub default: Option<Text>,
}

/// A procedure: its name, its parameters and its body.
#[derive(Drop)]
pub struct Proc {
    pub name: Text,
    pub parameters: Vec<Parameter>,
    pub body: Node,
}

/// Procedures in order. Of several with one name the first counts.
#[derive(Drop)]
pub struct Procs {
    procs: Vec<Proc>,
}

impl Model for Procs {
    ghost use Rattle.std.specs.Coded.{codes};
    ghost use Rattle.std.specs.Prelude.{List};
    ghost use Rattle.tcl_trees.specs.contracts.node.Node as node;
    ghost use Rattle.tcl_trees.specs.declared.procs.Proc.{Proc};

    ghost Value = { List Proc };

    ghost coded = { Prim.hlevel (codes, node.the_row.coded) };

    ghost view = { λ s. s.procs.items };
}

impl Procs {
    pub fn new(alloc: Global) -> Procs
        ensures { result ≡ [] }
    {
        Procs {
            procs: Vec::new(alloc),
        }
    }

    /// Adds a procedure at the end.
    pub fn push(&mut self, procedure: Proc) -> M<()>
        ensures ok { OnOk result (self.new ≡ self.old ++ procedure ∷ []) }
        ensures err { OnErr result (self.new ≡ self.old) }
    {
        self.procs.push(procedure)?;
        Ok(())
    }

    /// The procedure of that name.
    pub fn get(&self, name: &[u8]) -> Option<&Proc>
        ensures { option_map (λ p. procedure_view p.now) result
            ≡ procedure_named name.now (procs_view self.now) }
    {
        self.first(name)
    }

    /// The place of the procedure of that name.
    pub fn place(&self, name: &[u8]) -> Option<usize>
        ensures { result ≡ place_named name.now (procs_view self.now) }
    {
        self.first_place(name)
    }

    /// The procedure at the place.
    pub fn at(&self, place: usize) -> Option<&Proc>
        ensures { option_map (λ p. procedure_view p.now) result
            ≡ slice_get (procs_view self.now) place }
    {
        self.nth(place)
    }

    fn nth(&self, place: usize) -> Option<&Proc>
        ensures { option_map (λ p. p.now) result ≡ slice_get self.now place }
    {
        self.procs.get(place)
    }

    fn first_place(&self, name: &[u8]) -> Option<usize>
        ensures { result ≡ position (λ p. bytes_eq p.name name.now) self.now }
    {
        self.procs
            .iter()
            .position(|procedure| procedure.name.as_bytes() == name)
    }

    fn first(&self, name: &[u8]) -> Option<&Proc>
        ensures { option_map (λ p. p.now) result
            ≡ find (λ p. bytes_eq p.name name.now) self.now }
    {
        self.procs
            .iter()
            .find(|procedure| procedure.name.as_bytes() == name)
    }
}
