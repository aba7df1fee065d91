// What holds of HTTP commands.

ghost use Rattle.irule_http.specs.Framing.{FramingIsKept};
ghost use Rattle.irule_http.specs.Laws.{AnsweredOnce, AnswersAreBounded, AnswersAreCounted};
ghost use Rattle.irule_http.specs.Laws.{AnswersGoAlone};
ghost use Rattle.irule_http.specs.Laws.{AnswersReadBack};
ghost use Rattle.irule_http.specs.Laws.{FaultsChangeNothing, HeadsFit, KeepsMessage, PayloadFits};
ghost use Rattle.irule_http.specs.Laws.{Silent};
ghost use Rattle.irule_http.specs.Sent.{InterimHeadsFit, SentHeadsFit, SentRequestIsRead};
ghost use Rattle.irule_http.specs.Sent.{SentResponseIsRead};

/// The law that the bodies of one event never send more than 1,114,112 bytes to the client, and none
/// to a server.
pub fn answers_are_bounded()
    ensures { AnswersAreBounded }
{}

/// The law that each command counts what it sends to the client, within 1,114,112 bytes, and sends
/// nothing to a server.
pub fn answers_are_counted()
    ensures { AnswersAreCounted }
{}

/// The law that a payload of at most 1,048,576 bytes stays so.
pub fn payload_fits()
    ensures { PayloadFits }
{}

/// The law that heads of at most so many bytes as they are written, from 65,536 on, stay so.
pub fn heads_fit()
    ensures { HeadsFit }
{}

/// The law that no command changes what is known of the messages as they came, of the body at hand
/// and of the server's connection.
pub fn keeps_message()
    ensures { KeepsMessage }
{}

/// The law that a fault changes nothing and sends nothing.
pub fn faults_change_nothing()
    ensures { FaultsChangeNothing }
{}

/// The law that behind an answer no command edits, collects, releases or answers.
pub fn answered_once()
    ensures { AnsweredOnce }
{}

/// The law that what a command of at most 1,048,576 bytes sends is read back: a response's head, and a
/// content of the length that the head tells.
pub fn answers_read_back()
    ensures { AnswersReadBack }
{}

/// The law that heads of at most so many bytes have at most 44 more as they go out.
pub fn sent_heads_fit()
    ensures { SentHeadsFit }
{}

/// The same of responses before the final one.
pub fn interim_heads_fit()
    ensures { InterimHeadsFit }
{}

/// The law that a request's head that goes out is read back as that head, without the white space around
/// its values.
pub fn sent_request_is_read()
    ensures { SentRequestIsRead }
{}

/// The same of responses, where they have at most 100 fields.
pub fn sent_response_is_read()
    ensures { SentResponseIsRead }
{}

/// The law that a command sends nothing, or the one answer of a rule to the request at hand.
pub fn answers_go_alone()
    ensures { AnswersGoAlone }
{}

/// The law that in an event in which no rule may answer no command sends.
pub fn silent()
    ensures { Silent }
{}

/// The law that no command changes how long a request's head says that its body is.
pub fn framing_is_kept()
    ensures { FramingIsKept }
{}
