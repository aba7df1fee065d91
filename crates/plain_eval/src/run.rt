// How far an evaluation is.

ghost use Rattle.std.specs.Prelude.{Err, IfErr, Ok, [], ◌++◌, ◌≡◌, ◌≤◌};
ghost use Rattle.px_bytes.specs.Limit.{text_limit};
ghost use Rattle.rule_model.specs.declared.code.Code.TheVariants.{Value};
ghost use Rattle.plain_eval.specs.End.{AddsPiece, AddsValue, Limited, Spends, end_of, ended};
ghost use Rattle.plain_eval.specs.End.{fault_end, going, kept, kept_end, loop_end, noted, value_in};

use px_bytes::{M, Raise, Reply, TEXT_LIMIT, TclFault, Text, Texts};
use rule_model::Code;
use rule_nodes::{Goes, coded};
use std::alloc::Global;
use std::mem;
use tcl_vars::Vars;

/// How an evaluation ended: with a code, at a shared call that has no reply yet, or out of memory.
#[derive(Drop)]
pub(crate) enum End {
    Done(Code),
    Waits(Texts),
    Memory,
}

/// What was evaluated has no value: its end says why.
#[derive(Clone, Copy)]
pub(crate) struct Halted;

/// Whether there is a value.
pub(crate) type Halts = Result<(), Halted>;

/// The variables, the replies that are left, the budget that is left, and the end of what was
/// evaluated last. Ends stand here and aren't handed from call to call, so that nested calls take
/// little of the stack.
#[derive(Drop)]
pub(crate) struct Run<'a> {
    pub(crate) vars: Vars,
    pub(crate) left: &'a [Reply],
    pub(crate) budget: u32,
    pub(crate) end: End,
}

impl Run<'_> {
    /// Notes a code.
    pub(crate) fn note(&mut self, code: M<Code>) -> Halts
        ensures noted { self.new ≡ record self.old { end = noted code } }
        ensures ended { result ≡ ended (noted code) }
    {
        self.end = match code {
            Ok(code) => End::Done(code),
            Err(_) => End::Memory,
        };
        self.ended()
    }

    /// Whether the end is a value.
    pub(crate) fn ended(&self) -> Halts
        ensures { result ≡ ended self.now.end }
    {
        match &self.end {
            End::Done(Code::Value(_)) => Ok(()),
            _ => Err(Halted),
        }
    }

    /// Notes a value or a fault.
    pub(crate) fn settle(&mut self, value: Result<Text, Raise>) -> Halts
        ensures noted { self.new ≡ record self.old { end = end_of value } }
        ensures ended { result ≡ ended (end_of value) }
    {
        self.note(coded(value))
    }

    /// What a call gave, whose fault is noted.
    pub(crate) fn kept<T: Drop>(&mut self, given: Result<T, Raise>) -> Result<T, Halted>
        ensures noted { self.new ≡ record self.old { end = kept_end given self.old.end } }
        ensures kept { result ≡ kept given }
        ensures halts { IfErr result (λ h. ended self.new.end ≡ Err h) }
    {
        match given {
            Ok(value) => Ok(value),
            Err(Raise::Fault(fault)) => Err(self.raise(Ok(fault))),
            Err(Raise::Memory) => Err(self.no_memory()),
        }
    }

    /// Notes the empty value.
    #[inline(never)]
    pub(crate) fn nothing(&mut self, alloc: Global) -> Halts
        ensures noted { self.new ≡ record self.old { end = End.Done (Value []) } }
        ensures ended { result ≡ Ok tt }
    {
        self.note(Ok(Code::Value(Text::empty(alloc))))
    }

    /// Notes that memory was refused.
    #[inline(never)]
    pub(crate) fn no_memory(&mut self) -> Halted
        ensures { self.new ≡ record self.old { end = End.Memory } }
    {
        self.end = End::Memory;
        Halted
    }

    /// Notes a fault.
    #[inline(never)]
    pub(crate) fn raise(&mut self, fault: M<TclFault>) -> Halted
        ensures { self.new ≡ record self.old { end = fault_end fault } }
    {
        self.end = match fault {
            Ok(fault) => End::Done(Code::Raised(fault)),
            Err(_) => End::Memory,
        };
        Halted
    }

    /// Takes the value that was noted, and leaves the empty one.
    pub(crate) fn take(&mut self, alloc: Global) -> Text
        ensures noted { self.new ≡ record self.old { end = End.Done (Value []) } }
        ensures value { result ≡ value_in self.old.end }
    {
        match mem::replace(&mut self.end, End::Done(Code::Value(Text::empty(alloc)))) {
            End::Done(Code::Value(value)) => value,
            _ => Text::empty(alloc),
        }
    }

    /// The value that was noted.
    pub(crate) fn value(&self) -> &[u8]
        ensures { result.now ≡ value_in self.now.end }
    {
        match &self.end {
            End::Done(Code::Value(value)) => value.as_bytes(),
            _ => b"",
        }
    }

    /// Keeps what was noted, unless it is a value that is longer than a text may be.
    #[inline(never)]
    pub(crate) fn limit(&mut self, alloc: Global) -> Halts
        ensures ended { result ≡ ended self.new.end }
        ensures same { self.new ≡ record self.old { end = self.new.end } }
        ensures value { Limited self.old.end self.new.end }
    {
        if self.value().len() > TEXT_LIMIT {
            return Err(self.raise(TclFault::too_long(alloc)));
        }
        self.ended()
    }

    /// Whether a loop goes on. The end of one that is over is the empty value.
    pub(crate) fn go_on(&mut self, alloc: Global, goes: Goes) -> Halts
        ensures noted { self.new ≡ record self.old { end = loop_end goes self.old.end } }
        ensures going { result ≡ going goes }
    {
        match goes {
            Goes::On => Ok(()),
            Goes::Over => {
                self.end = End::Done(Code::Value(Text::empty(alloc)));
                Err(Halted)
            }
            Goes::Ends => Err(Halted),
        }
    }

    /// Takes a unit of the budget.
    #[inline(never)]
    pub(crate) fn spend(&mut self, alloc: Global) -> Halts
        ensures halts { IfErr result (λ h. ended self.new.end ≡ Err h) }
        ensures spends { Spends self.old result self.new }
    {
        if self.budget == 0 {
            return Err(self.raise(TclFault::budget_spent(alloc)));
        }
        self.budget -= 1;
        Ok(())
    }

    /// Adds the value that was noted behind those of a row, which have so many bytes together.
    #[inline(never)]
    pub(crate) fn add_value(
        &mut self,
        alloc: Global,
        total: usize,
        values: &mut Texts,
    ) -> Result<usize, Halted>
        requires { total ≤ text_limit }
        ensures halts { IfErr result (λ h. ended self.new.end ≡ Err h) }
        ensures same { self.new ≡ record self.old { end = self.new.end } }
        ensures adds { let value = value_in self.old.end in
            AddsValue total value values.old result values.new self.new.end }
    {
        let value = self.take(alloc);
        let more = value.len();
        if more > TEXT_LIMIT - total {
            return Err(self.raise(TclFault::too_long(alloc)));
        }
        if values.push(value).is_err() {
            return Err(self.no_memory());
        }
        Ok(total + more)
    }

    /// Adds the value that was noted behind the pieces of a word.
    #[inline(never)]
    pub(crate) fn add_piece(&mut self, alloc: Global, text: &mut Text) -> Halts
        ensures halts { IfErr result (λ h. ended self.new.end ≡ Err h) }
        ensures same { self.new ≡ record self.old { end = self.new.end } }
        ensures adds { let all = text.old ++ value_in self.old.end in
            AddsPiece all result text.new self.new.end }
    {
        if text.push(self.value()).is_err() {
            return Err(self.no_memory());
        }
        if text.len() > TEXT_LIMIT {
            return Err(self.raise(TclFault::too_long(alloc)));
        }
        Ok(())
    }
}
