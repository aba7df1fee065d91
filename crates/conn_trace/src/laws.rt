// Laws of the trace.

ghost use Rattle.conn_trace.specs.Bounds.{PendingIsBounded, TheHeadsFit, UnreadStaysWithin};
ghost use Rattle.conn_trace.specs.Laws.{
  ChoicesJoin,
  ClientIsRead,
  CutEnds,
  CutKeepsGiven,
  CutWaits,
  FurtherKeepsTrace,
  GivenIsDue,
  LongerInputKeepsTrace,
  MetJoins,
  MetMore,
  NextIsSame,
  NextIsSameOnReplies,
  RepliesKeepTrace,
  RestIsCut,
  RestIsCutAlso,
  SentIsCounted,
  SentIsOutput,
  SentToServer,
  ServerResetEnds,
  StoppedIsWhole,
  TakenAllOpens,
  TraceIsUnfolding,
  UnfoldingsAgree,
  UnfoldsBehind,
};
ghost use Rattle.conn_trace.specs.Phases.{FinishesOnce, PhasesFollow, StartIsOrderly};
ghost use Rattle.conn_trace.specs.HeardLaws.{
  EachEventLengthens,
  EventStands,
  FinishedStands,
  NotesTellChoices,
  NotesTellCut,
  NotesTellFinish,
  OthersAreNotHeard,
  RunStands,
};
ghost use Rattle.conn_trace.specs.Spoken.{HttpIsSpoken};
ghost use Rattle.conn_trace.specs.Queries.{ComesWhereItArrives, HalfCloseStays};
ghost use Rattle.conn_trace.specs.Units.{DroppedUnfold, GatheredAtOnce, GatheredUnfold, UnitsMet, UnitsUnfold};
ghost use Rattle.conn_trace.specs.Selected.{SelectedIsSpelled, WrittenIsSelected};

/// On a longer input the next item is the same, unless it waits.
pub fn next_is_same()
    ensures { NextIsSame }
{}

/// More replies do no more either where a cut is recorded.
pub fn next_is_same_on_replies()
    ensures { NextIsSameOnReplies }
{}

/// On a longer input what came still comes.
pub fn longer_input_keeps_trace()
    ensures { LongerInputKeepsTrace }
{}

/// A cut whose counts meet the gates of what was given leaves it.
pub fn cut_keeps_given()
    ensures { CutKeepsGiven }
{}

/// What was given stays in front, whatever comes.
pub fn further_keeps_trace()
    ensures { FurtherKeepsTrace }
{}

/// Replies keep it also behind a cut.
pub fn replies_keep_trace()
    ensures { RepliesKeepTrace }
{}

/// Choices are made one after another, and perhaps a cut behind them.
pub fn choices_join()
    ensures { ChoicesJoin }
{}

/// A cut ends a wait that it takes, and a closed gate.
pub fn cut_ends()
    ensures { CutEnds }
{}

/// A cut that isn't taken now is kept, and changes nothing else.
pub fn cut_waits()
    ensures { CutWaits }
{}

/// Where no more may be given a cut is taken, unless a call is awaited or all is over.
pub fn rest_is_cut()
    ensures { RestIsCut }
{}

/// Two unfoldings from one state agree up to the shorter.
pub fn unfoldings_agree()
    ensures { UnfoldingsAgree }
{}

/// The first items of the trace are those of each unfolding.
pub fn trace_is_unfolding()
    ensures { TraceIsUnfolding }
{}

/// Where nothing comes next the items are the whole trace.
pub fn stopped_is_whole()
    ensures { StoppedIsWhole }
{}

/// Where an unfolding stands is a function of where it began and of its length.
pub fn unfolds_behind()
    ensures { UnfoldsBehind }
{}

/// Items behind which no more may be given are the longest that may.
pub fn given_is_due()
    ensures { GivenIsDue }
{}

/// What was sent stands in the state.
pub fn sent_is_counted()
    ensures { SentIsCounted }
{}

/// The client's stream is what the items left of it.
pub fn client_is_read()
    ensures { ClientIsRead }
{}

/// As much was sent to the client as the items send.
pub fn sent_is_output()
    ensures { SentIsOutput }
{}

/// As much was sent to the present server connection as the items send to it.
pub fn sent_to_server()
    ensures { SentToServer }
{}

/// What may be given may be given when more is taken, or a side is reset.
pub fn met_more()
    ensures { MetMore }
{}

/// What may be given one after another may be given.
pub fn met_joins()
    ensures { MetJoins }
{}

/// Where all is taken every gate is open.
pub fn taken_all_opens()
    ensures { TakenAllOpens }
{}

/// A connection starts in order.
pub fn start_is_orderly()
    ensures { StartIsOrderly }
{}

/// Each item keeps the phase or leads to one that may follow.
pub fn phases_follow()
    ensures { PhasesFollow }
{}

/// No trace finishes twice.
pub fn finishes_once()
    ensures { FinishesOnce }
{}

/// What an event and its group tell of a connection lengthens the input of its trace.
pub fn each_event_lengthens()
    ensures { EachEventLengthens }
{}

/// The notes of items tell the choices that they took.
pub fn notes_tell_choices()
    ensures { NotesTellChoices }
{}

/// They tell the cut that items took.
pub fn notes_tell_cut()
    ensures { NotesTellCut }
{}

/// They tell that items finish, never for want of memory, and no reply.
pub fn notes_tell_finish()
    ensures { NotesTellFinish }
{}

/// A place stands on whatever is heard, while no cut was heard.
pub fn event_stands()
    ensures { EventStands }
{}

/// Behind a run a place with the items that it gave stands on what is heard then.
pub fn run_stands()
    ensures { RunStands }
{}

/// Once the connection has finished a place stands on the replies that are heard.
pub fn finished_stands()
    ensures { FinishedStands }
{}

/// What happens to others isn't heard.
pub fn others_are_not_heard()
    ensures { OthersAreNotHeard }
{}

/// What is owed stays owed, whatever comes.
pub fn half_close_stays()
    ensures { HalfCloseStays }
{}

/// Bytes that come lengthen the stream where they arrive.
pub fn comes_where_it_arrives()
    ensures { ComesWhereItArrives }
{}

/// Bytes of a body go one by one.
pub fn units_unfold()
    ensures { UnitsUnfold }
{}

/// They may be given where all of them have room.
pub fn units_met()
    ensures { UnitsMet }
{}

/// What is left of an answered request's body is dropped byte by byte.
pub fn dropped_unfold()
    ensures { DroppedUnfold }
{}

/// And gathered so, while more are wanted.
pub fn gathered_unfold()
    ensures { GatheredUnfold }
{}

/// Which is as good as all of them at once.
pub fn gathered_at_once()
    ensures { GatheredAtOnce }
{}

/// Where no more may be given a cut is taken, but one by the server with HTTP.
pub fn rest_is_cut_also()
    ensures { RestIsCutAlso }
{}

/// With HTTP a server's reset ends the waits for its bytes.
pub fn server_reset_ends()
    ensures { ServerResetEnds }
{}

/// The address that a reply selects is the one that it spells.
pub fn selected_is_spelled()
    ensures { SelectedIsSpelled }
{}

/// And each address is read as it is written.
pub fn written_is_selected()
    ensures { WrittenIsSelected }
{}

/// No item lengthens what lies unread, and none passes on more than that.
pub fn unread_stays_within()
    ensures { UnreadStaysWithin }
{}

/// Where each item met its gate fewer than 2,400,000 bytes are pending to a side.
pub fn pending_is_bounded()
    ensures { PendingIsBounded }
{}

/// Heads as every connection that speaks HTTP reads and writes them keep the limits that this asks of them.
pub fn the_heads_fit()
    ensures { TheHeadsFit }
{}

/// HTTP is spoken by a connection throughout, or never: with it no collect of a side is asked, and without it no
/// phase of HTTP is reached and no server connection is given up.
pub fn http_is_spoken()
    ensures { HttpIsSpoken }
{}
