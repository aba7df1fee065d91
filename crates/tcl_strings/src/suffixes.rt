// The suffixes of keys, as an automaton that reads a text from its end.

ghost use Rattle.std.specs.Prelude.{◌≡◌, ◌<◌, [], ◌∷◌, length, drop, IfOk, OnOk};
ghost use Rattle.tcl_strings.specs.Automaton.{Grows, IsUpTo, text_at};
ghost use Rattle.tcl_strings.specs.FirstKeys.{IsLeast};
ghost use Rattle.tcl_strings.specs.Suffixes.{IsLongestNode, IsSound, texts};

use crate::edges::Edges;
use px_bytes::M;
use std::alloc::Global;

/// Suffixes of keys by rising length, the empty one first. With a suffix, each shorter one of it is
/// there.
#[derive(Drop)]
pub(crate) struct Suffixes<'a> {
    nodes: Vec<&'a [u8]>,
    // For each node the longest other with which its suffix begins.
    links: Vec<usize>,
    edges: Edges,
}

impl<'a> Suffixes<'a> {
    /// The empty suffix alone.
    pub(crate) fn new(alloc: Global) -> M<Suffixes<'a>>
        ensures sound { IfOk result (λ s. IsSound s) }
        ensures root { IfOk result (λ s. texts s ≡ [] ∷ []) }
    {
        let mut nodes = Vec::new(alloc);
        nodes.push(&[][..])?;
        let mut links = Vec::new(alloc);
        links.push(0)?;
        Ok(Suffixes {
            nodes,
            links,
            edges: Edges::new(alloc),
        })
    }

    /// How many suffixes there are.
    pub(crate) fn len(&self) -> usize
        ensures { result ≡ length (texts self.now) }
    {
        self.nodes.len()
    }

    /// The node of the longest suffix with which the text begins.
    pub(crate) fn longest(&self, text: &[u8]) -> usize
        requires { IsSound self.now }
        ensures { IsLongestNode self.now text.now result }
    {
        let mut node = 0;
        let mut place = text.len();
        while place > 0 {
            place -= 1;
            node = self.step(node, &text[place..]);
        }
        node
    }

    /// The node of the longest suffix with which the text begins, from the node of the longest with
    /// which it goes on behind its first byte.
    pub(crate) fn step(&self, behind: usize, text: &[u8]) -> usize
        requires sound { IsSound self.now }
        requires some { 0 < length text.now }
        requires behind { IsLongestNode self.now (drop 1 text.now) behind }
        ensures { IsLongestNode self.now text.now result }
    {
        let mut node = behind;
        loop {
            if let Some(longer) = self.edges.get(node, text[0]) {
                return longer;
            }
            if node == 0 {
                return 0;
            }
            node = self.links[node];
        }
    }

    /// The node of a suffix whose rest behind its first byte is a node; made where there is none.
    pub(crate) fn add(&mut self, behind: usize, suffix: &'a [u8]) -> M<usize>
        requires sound { IsSound self.old }
        requires some { 0 < length suffix.now }
        requires within { behind < length (texts self.old) }
        requires behind { text_at (texts self.old) behind ≡ drop 1 suffix.now }
        requires tallest { IsUpTo (texts self.old) (length suffix.now) }
        ensures sound { OnOk result (IsSound self.new) }
        ensures grows { OnOk result (Grows (texts self.old) (texts self.new)) }
        ensures tallest { OnOk result (IsUpTo (texts self.new) (length suffix.now)) }
        ensures within { IfOk result (λ node. node < length (texts self.new)) }
        ensures is { IfOk result (λ node. text_at (texts self.new) node ≡ suffix.now) }
    {
        if let Some(node) = self.edges.get(behind, suffix[0]) {
            return Ok(node);
        }
        let link = self.step(behind, suffix);
        let node = self.nodes.len();
        self.nodes.push(suffix)?;
        self.links.push(link)?;
        self.edges.put(behind, suffix[0], node)?;
        Ok(node)
    }

    /// Lets each node have the least of its own number and of those of all suffixes with which its
    /// suffix begins; the empty one keeps its own.
    pub(crate) fn take_least(&self, numbers: &mut [usize])
        requires sound { IsSound self.now }
        requires size { length numbers.old ≡ length (texts self.now) }
        ensures { IsLeast self.now.links.items numbers.old numbers.new }
    {
        for node in 1..numbers.len() {
            numbers[node] = numbers[node].min(numbers[self.links[node]]);
        }
    }
}
