//! What holds of every list of events: laws of the definitions that the contracts cite, and no body does anything.

ghost use Rattle.dlm_core.specs.Answers.{AnswersAreTrue};
ghost use Rattle.dlm_core.specs.Notices.{NoticesAreTrue};
ghost use Rattle.dlm_core.specs.Order.{AsksAreTakenInOrder, QueueIsInOrder};
ghost use Rattle.dlm_core.specs.Restored.{RecoveriesGrantClaims};
ghost use Rattle.dlm_core.specs.Runs.{AllGoTogether, GrantsAreTrue, TablesGoByCalls};
ghost use Rattle.dlm_core.specs.Values.{HoldersHaveTheLastWrite};

/// After every list of events, so for every order of deliveries and deaths, the modes that two living owners believe on one
/// name are compatible.
pub fn beliefs_go_together()
    ensures { AllGoTogether }
{}

/// Every grant that is delivered was sent by the event that gave the lock, and by one change within that event. This change
/// was one of three. It was the call on the name that the event delivered. Or it was a death: the name had another master
/// and was not being recovered, the owner's ask stood in a queue, and the locks and requests of the dead node went; if this
/// node could write the value block, the grant says that it is not valid. Or it was a step of a recovery that ended with the
/// event, on the name: a claim that was made, with the value block that the rule tells, or a message that was kept back;
/// this only if the name was being recovered before the event. Before the change the owner asked for the mode;
/// after it the table of the name had the lock in that mode, with the value block and the mark of the grant. The grant brings
/// the version that the name has after the call, had before the death, or gets by the claims; behind a message that was kept
/// back no version is said. From then on the grant was on its way.
pub fn grants_are_true()
    ensures { GrantsAreTrue }
{}

/// At each event of every list the tables go by calls that they may take. Where the event delivers an ask or a drop on a
/// name that is not being recovered, the table of the name's home makes that call, and all others stay. With a claim the
/// tables go by the steps of recoveries that end: each is a call on a name whose claims have all come. It asks for what was
/// claimed, and then the name has the value block that it gets by the rule; or it was kept back. A death first takes
/// away what the dead node had and the names that it was the master of, and then the tables go by such steps. On any other
/// event all tables stay.
pub fn tables_go_by_calls()
    ensures { TablesGoByCalls }
{}

/// When the last claim has come, the tables have of the names that are recovered just the claimed locks, all granted. A name
/// with a claimed lock has the value block that the rule tells, with its mark and its version. By `BlockRule::OfHolders` it is
/// what the owner of one of these locks has seen: of one above CR with its mark, else the latest, not valid. All other names are
/// as they were. The claimed asks and what was kept back are taken then.
pub fn recoveries_grant_claims()
    ensures { RecoveriesGrantClaims }
{}

/// The claims of a dead node's names, whose asks are taken one after the other when the last has come, stand in order after every
/// list of events: of two on one name who has a lock, and so asks for a conversion, goes before who has none; else the owner of the
/// lower node, and on one node of the lower part.
pub fn claimed_asks_are_taken_in_order()
    ensures { AsksAreTakenInOrder }
{}

/// After every list of events the asks that wait at their masters stand in order of names, and on one name no request stands in front
/// of a conversion; also once the name has been recovered. In this order they are granted.
pub fn waiting_asks_stand_in_order()
    ensures { QueueIsInOrder }
{}

/// After every list of events each notice is true: it comes from the master of its name, where its owner has a lock that does not go
/// with the mode which another owner waits for. And on each name where somebody waits there is a notice, or an ask or a drop is on its
/// way to the master from an owner that has a lock there.
pub fn notices_are_true()
    ensures { NoticesAreTrue }
{}

/// Every answer is true. An ask or a drop that is told `Done` has put exactly one message behind the mail, from the owner's
/// node to the master of the name, with the mode and the bytes; the node has noted the new belief and what is waited for,
/// and what it writes, if it does; all else is as it was. Each other answer of an ask or a drop says why it is refused, and
/// nothing has changed then; likewise a Pass without a message, and an event whose node does not live.
pub fn answers_are_true()
    ensures { AnswersAreTrue }
{}

/// Under the rule `BlockRule::OfHolders` who gets a lock above CR reads the last write of the name, or a value block that is not
/// valid; and so has at any time every owner that believes such a lock. A write is an ask or a drop of an owner that believes PW
/// or EX, which lowers its lock or keeps it. When nobody has a lock or a request on a name any more it begins again with zeros;
/// while it is recovered, or as its master dies, it may also do so once nobody believes a lock on it.
pub fn holders_have_the_last_write()
    ensures { HoldersHaveTheLastWrite }
{}
