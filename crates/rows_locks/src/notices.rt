//! Rows on notices: whose lock is in the way of an ask that waits.

use dlm_core::{Dlm, Event, LockName, Mode, Notice, Owner};
use std::test::Fail;

const ONE: Owner = Owner { node: 1, part: 0 };

const CHANNEL: Owner = Owner { node: 1, part: 1 };

const TWO: Owner = Owner { node: 2, part: 0 };

/// Node 1 is its home.
const NAME: LockName = LockName::S(2);

/// Node 2 is its home.
const AWAY: LockName = LockName::S(1);

#[derive(Clone, Copy)]
enum Step {
    Asks(Owner, LockName, Mode),
    Drops(Owner, LockName),
    Passes(u8, u8),
    Dies(u8),
}

/// What happens on two nodes, and the notices after it.
struct Row {
    name: &'static str,
    steps: &'static [Step],
    notices: &'static [Notice],
}

/// Node 1 is the master of both names when these are due.
const ONE_PW: Notice = Notice {
    from: 1,
    owner: ONE,
    name: NAME,
    wanted: Mode::PW,
};

const TWO_PW: Notice = Notice {
    from: 1,
    owner: TWO,
    name: NAME,
    wanted: Mode::PW,
};

const TWO_PR: Notice = Notice {
    from: 1,
    owner: TWO,
    name: NAME,
    wanted: Mode::PR,
};

const TWO_EX: Notice = Notice {
    from: 1,
    owner: TWO,
    name: NAME,
    wanted: Mode::EX,
};

const AWAY_PW: Notice = Notice {
    from: 1,
    owner: ONE,
    name: AWAY,
    wanted: Mode::PW,
};

const ROWS: [Row; 8] = [
    Row {
        name: "a reader is in the way of a writer",
        steps: &[
            Step::Asks(ONE, NAME, Mode::PR),
            Step::Passes(1, 1),
            Step::Passes(1, 1),
            Step::Asks(TWO, NAME, Mode::PW),
            Step::Passes(2, 1),
        ],
        notices: &[ONE_PW],
    },
    Row {
        name: "two readers are told one after the other, and who has CR is not",
        steps: &[
            Step::Asks(TWO, NAME, Mode::PR),
            Step::Asks(ONE, NAME, Mode::PR),
            Step::Asks(CHANNEL, NAME, Mode::CR),
            Step::Passes(2, 1),
            Step::Passes(1, 1),
            Step::Passes(1, 1),
            Step::Passes(1, 1),
            Step::Passes(1, 1),
            Step::Passes(1, 2),
            Step::Asks(CHANNEL, NAME, Mode::PW),
            Step::Passes(1, 1),
        ],
        notices: &[ONE_PW, TWO_PW],
    },
    Row {
        name: "a drop on its way changes nothing yet",
        steps: &[
            Step::Asks(TWO, NAME, Mode::EX),
            Step::Passes(2, 1),
            Step::Passes(1, 2),
            Step::Asks(ONE, NAME, Mode::PR),
            Step::Passes(1, 1),
            Step::Drops(TWO, NAME),
        ],
        notices: &[TWO_PR],
    },
    Row {
        name: "who waited has its lock, and nobody is in the way",
        steps: &[
            Step::Asks(TWO, NAME, Mode::EX),
            Step::Passes(2, 1),
            Step::Passes(1, 2),
            Step::Asks(ONE, NAME, Mode::PR),
            Step::Passes(1, 1),
            Step::Drops(TWO, NAME),
            Step::Passes(2, 1),
        ],
        notices: &[],
    },
    Row {
        name: "a conversion waits for the other reader alone",
        steps: &[
            Step::Asks(ONE, NAME, Mode::PR),
            Step::Asks(TWO, NAME, Mode::PR),
            Step::Passes(1, 1),
            Step::Passes(2, 1),
            Step::Passes(1, 1),
            Step::Passes(1, 2),
            Step::Asks(ONE, NAME, Mode::EX),
            Step::Passes(1, 1),
        ],
        notices: &[TWO_EX],
    },
    Row {
        name: "a death takes its cause away",
        steps: &[
            Step::Asks(TWO, NAME, Mode::EX),
            Step::Passes(2, 1),
            Step::Passes(1, 2),
            Step::Asks(ONE, NAME, Mode::PR),
            Step::Passes(1, 1),
            Step::Dies(2),
        ],
        notices: &[],
    },
    Row {
        name: "while a name is recovered nobody is told",
        steps: &[
            Step::Asks(ONE, AWAY, Mode::PR),
            Step::Passes(1, 2),
            Step::Passes(2, 1),
            Step::Asks(CHANNEL, AWAY, Mode::PW),
            Step::Passes(1, 2),
            Step::Dies(2),
        ],
        notices: &[],
    },
    Row {
        name: "the new master tells it",
        steps: &[
            Step::Asks(ONE, AWAY, Mode::PR),
            Step::Passes(1, 2),
            Step::Passes(2, 1),
            Step::Asks(CHANNEL, AWAY, Mode::PW),
            Step::Passes(1, 2),
            Step::Dies(2),
            Step::Passes(1, 1),
        ],
        notices: &[AWAY_PW],
    },
];

fn event_of(step: Step) -> Event {
    match step {
        Step::Asks(owner, name, mode) => Event::Ask {
            owner,
            name,
            mode,
            fill: 0,
        },
        Step::Drops(owner, name) => Event::Drop {
            owner,
            name,
            fill: 0,
        },
        Step::Passes(from, to) => Event::Pass { from, to },
        Step::Dies(node) => Event::Kill { node },
    }
}

// The database after what happens in a row.
fn played(rt: &HostRuntime, row: &Row) -> Result<Dlm, Fail> {
    let mut dlm = Dlm::new(rt.alloc(), 2)?;
    for step in row.steps {
        let _told = dlm.step(rt.alloc(), &event_of(*step))?;
    }
    Ok(dlm)
}

#[test]
fn holders_in_the_way_have_notices(rt: HostRuntime) -> Result<(), Fail> {
    for row in &ROWS {
        let dlm = played(&rt, row)?;
        let notices = dlm.notices(rt.alloc())?;
        assert_eq!(rt; notices.as_slice(), row.notices, "{}", row.name);
    }
    Ok(())
}
