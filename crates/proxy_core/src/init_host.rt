// The host of RULE_INIT.

ghost use Rattle.std.specs.Prelude.{◌≡◌};
ghost use Rattle.record_model.specs.Init.{init_host};

use conn::host_command;
use event_order::EventName;
use irule_net::{Effects, Groups, NetState};
use plain_eval::PlainHost;
use px_bytes::{Addr, HostAnswer, Text, Texts};
use std::alloc::Global;
use std::marker::Model;

/// What the commands of RULE_INIT read and leave: no connection stands behind it, and what they do
/// outside the script is kept.
#[derive(Drop)]
pub struct InitHost {
    net: NetState,
    made: Effects,
}

impl Model for InitHost {
    ghost use Rattle.record_model.specs.Init.{InitHost as Seen};

    ghost Value = { Seen };

    ghost view = { λ h. record { net = h.net; made = h.made } };
}

impl InitHost {
    pub fn new(alloc: Global) -> InitHost
        ensures { result ≡ init_host }
    {
        let from = Addr { ip: 0, port: 0 };
        InitHost {
            net: NetState::new(alloc, from, 0, Text::empty(alloc), false),
            made: Effects::new(alloc),
        }
    }

    /// What was done outside the script.
    pub fn made(&self) -> &Effects
        ensures { result.now ≡ self.now.made }
    {
        &self.made
    }
}

impl PlainHost for InitHost {
    ghost use Rattle.record_model.specs.Init.{init_table};

    type Env = Groups;

    ghost table = { init_table };

    fn call(&mut self, alloc: Global, groups: &Groups, words: &Texts) -> HostAnswer {
        let net = &mut self.net;
        host_command(
            alloc,
            groups,
            EventName::RuleInit,
            net,
            words,
            &mut self.made,
        )
    }
}
