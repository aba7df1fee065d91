// The host commands that a tree names.

ghost use Rattle.std.specs.Prelude.{◌≡◌, ◌↔◌, IsTrue};
ghost use Rattle.conn_trace.specs.Host.{is_there};
ghost use Rattle.irule_net.specs.Checks.{command_of};
ghost use Rattle.proxy.specs.HostCommands.{NamesBuilt, is_built, is_built_name, is_of_http, serves};
ghost use Rattle.proxy.specs.HostCommands.{is_host_name};
ghost use Rattle.proxy.specs.HostCommands.{names_in_all, names_in_operands, names_in_values};
ghost use Rattle.proxy.specs.HostCommands.{literal, may_all_stand, may_stand, name_of};
ghost use Rattle.proxy.specs.HostCommands.{only_text, plain_text};
ghost use Rattle.tcl_trees.specs.Tree.{operands_of, trees_of, values_of};
ghost use Rattle.tcl_trees.specs.TreeView.{node_view, nodes_view, operands_view, values_view};

use conn_trace::is_there;
use event_order::{HostCommand, is_host_command, read_command};
use tcl_expr::Joint;
use tcl_trees::{Node, Verb};

// Whether a host command has this name.
fn is_host_name(name: &[u8]) -> bool
    ensures { result ≡ is_host_name name.now }
{
    is_host_command(name)
}

fn command_of(name: &[u8]) -> Option<HostCommand>
    ensures { result ≡ command_of name.now }
{
    read_command(name)
}

// Whether HTTP adds the command.
fn is_of_http(command: HostCommand) -> bool
    ensures { result ≡ is_of_http command }
{
    match command {
        HostCommand::HttpUri
        | HostCommand::HttpPath
        | HostCommand::HttpQuery
        | HostCommand::HttpMethod
        | HostCommand::HttpHost
        | HostCommand::HttpRequestNum
        | HostCommand::HttpVersion
        | HostCommand::HttpHeader
        | HostCommand::HttpCookie
        | HostCommand::HttpStatus
        | HostCommand::HttpCollect
        | HostCommand::HttpPayload
        | HostCommand::HttpRelease
        | HostCommand::HttpClose
        | HostCommand::HttpRespond
        | HostCommand::HttpRedirect => true,
        _ => false,
    }
}

// Whether a connection has the command today, by whether one without HTTP has it.
fn serves(http: bool, command: HostCommand, there: bool) -> bool
    requires { there ≡ is_there command }
    ensures { result ≡ serves http command }
{
    there || (http && is_of_http(command))
}

// Whether it is the name of a host command that a connection has today.
#[tactic(auto, unfolding(crate::specs::HostCommands::is_built_name))]
fn is_built_name(http: bool, name: &[u8]) -> bool
    ensures { result ≡ is_built_name http name.now }
{
    match command_of(name) {
        Some(command) => serves(http, command, is_there(name)),
        None => false,
    }
}

// Whether the name of a command may stand in a rule: it is no host command's, or that of one that
// can be run.
fn may_stand(http: bool, name: &[u8]) -> bool
    ensures { result ≡ may_stand http name.now }
{
    is_built_name(http, name) || !is_host_name(name)
}

// The same of a part of a word; any that isn't plain may stand.
fn may_part_stand(http: bool, part: &Node) -> bool
    ensures { result ≡ may_all_stand http (plain_text (node_view part.now)) }
{
    match part {
        Node::Plain(text) => may_stand(http, text.as_bytes()),
        _ => true,
    }
}

// The same of the only part of a word; where there are more, it may stand.
#[tactic(auto, using(crate::proofs::HostNames::several_parts))]
fn may_parts_stand(http: bool, parts: &[Node]) -> bool
    ensures { result ≡ may_all_stand http (only_text (trees_of (nodes_view parts.now))) }
{
    match parts {
        [part] => may_part_stand(http, part),
        _ => true,
    }
}

// The same of a word.
fn may_word_stand(http: bool, word: &Node) -> bool
    ensures { result ≡ may_all_stand http (literal (node_view word.now)) }
{
    match word {
        Node::Word(parts) => may_parts_stand(http, parts),
        _ => true,
    }
}

// The same of the name of a command by its words.
fn may_run(http: bool, verb: Verb, words: &[Node]) -> bool
    ensures { result ≡ may_all_stand http (name_of verb (trees_of (nodes_view words.now))) }
{
    match (verb, words.first()) {
        (Verb::Named, Some(name)) => may_word_stand(http, name),
        _ => true,
    }
}

/// Whether each host command that the tree names can be run today, with HTTP or without. It takes no memory. The depth of
/// the calls is that of the tree.
pub fn is_built(http: bool, node: &Node) -> bool
    ensures same { result ≡ is_built http (node_view node.now) }
    ensures named { IsTrue result ↔ NamesBuilt http (node_view node.now) }
{
    node_is_built(http, node)
}

#[cycle(built)]
fn node_is_built(http: bool, node: &Node) -> bool
    ensures { result ≡ is_built http (node_view node.now) }
{
    match node {
        Node::Plain(_) | Node::Variable(_) | Node::NextBody => true,
        Node::Element(_, nodes) | Node::Word(nodes) | Node::Script(nodes) => nodes_are_built(
            http, nodes,
        ),
        Node::Command(verb, words) => may_run(http, *verb, words) && nodes_are_built(http, words),
        Node::Expr(node) | Node::Catch(node) | Node::Prefixed(_, node) => node_is_built(http, node),
        Node::If(values, last) | Node::Choice(values, last) => {
            values_are_built(http, values) && node_is_built(http, last)
        }
        Node::Loop {
            start,
            test,
            next,
            body,
        } => {
            node_is_built(http, start)
                && node_is_built(http, test)
                && node_is_built(http, next)
                && node_is_built(http, body)
        }
        Node::Foreach { words, body } => nodes_are_built(http, words) && node_is_built(http, body),
        Node::Switch { words, bodies, .. } => nodes_are_built(http, words)
            && nodes_are_built(http, bodies),
        Node::CatchIn { body, name } => node_is_built(http, body) && node_is_built(http, name),
        Node::Row(first, behind) => node_is_built(http, first) && operands_are_built(http, behind),
    }
}

#[cycle(built)]
fn nodes_are_built(http: bool, nodes: &[Node]) -> bool
    ensures { result ≡ may_all_stand http (names_in_all (trees_of (nodes_view nodes.now))) }
{
    for node in nodes {
        if !node_is_built(http, node) {
            return false;
        }
    }
    true
}

#[cycle(built)]
fn operands_are_built(http: bool, operands: &[(Joint, Node)]) -> bool
    ensures { result
        ≡ may_all_stand http (names_in_operands (operands_of (operands_view operands.now))) }
{
    for (_, operand) in operands {
        if !node_is_built(http, operand) {
            return false;
        }
    }
    true
}

#[cycle(built)]
fn values_are_built(http: bool, values: &[(Node, Node)]) -> bool
    ensures { result ≡ may_all_stand http (names_in_values (values_of (values_view values.now))) }
{
    for (condition, value) in values {
        if !node_is_built(http, condition) {
            return false;
        }
        if !node_is_built(http, value) {
            return false;
        }
    }
    true
}
