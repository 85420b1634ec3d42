//! Traces of runs on a fresh volume.

use crate::tracing::{FRESH, check};
use rows_calls::Exchange;
use std::test::Fail;

/// Node 2 waits for the lock of the main directory until node 1 has answered. Node 1 takes preallocated space for its file, and gives it
/// back at its end.
const WAITS: (&str, &str) = (
    "NODES 2\n\
    1 CREATE R1 MFD A.TXT;0 0 [1,4]\n\
    2 LOOKUP R1 MFD A.TXT;0\n",
    "1 N1 1 lock S(4) PW granted\n\
    2 N2 1 lock S(4) PR queued, N1 has PW\n\
    3 N1 2 read 20\n\
    5 N1 3 read 88\n\
    7 N1 4 read 89\n\
    9 N1 5 read 90\n\
    11 N1 6 read 91\n\
    13 N1 7 lock Q PW granted\n\
    15 N1 8 read 96\n\
    17 N1 9 read 97\n\
    19 N1 10 read 98\n\
    21 N1 11 read 99\n\
    23 N1 12 lock X CR granted\n\
    25 N1 13 lock V PW granted\n\
    27 N1 14 read 16 for space\n\
    29 N1 15 write 16 to fill the stock\n\
    31 N1 16 stock filled, V to NL\n\
    33 N1 17 lock S(12) PW granted\n\
    35 N1 18 read 28\n\
    37 N1 19 plan of 3 writes\n\
    39 N1 20 write 96, stage charged\n\
    41 N1 21 write 28, stage lost\n\
    43 N1 22 write 88, stage done\n\
    45 N1 23 answers CREATE R1 (4,4,0) A.TXT;0 0 [1,4] = (12,1,0) A.TXT;1; keeps X CR; keeps V NL; keeps S(4) NL; keeps Q NL; keeps S(12) NL\n\
    45 N2 - granted S(4) PR\n\
    46 N2 23 read 20\n\
    47 N1 24 lock V PW granted\n\
    48 N2 24 read 88\n\
    49 N1 25 hit 16 for space\n\
    50 N2 25 read 89\n\
    51 N1 26 write 16 to give the stock back\n\
    52 N2 26 read 90\n\
    53 N1 27 stock given back, V to NL, X back\n\
    54 N2 27 read 91\n\
    55 N1 28 leaves\n\
    56 N2 28 plan of 0 writes\n\
    57 N2 29 answers LOOKUP R1 (4,4,0) A.TXT;0 = (12,1,0) A.TXT;1; keeps S(4) NL\n\
    58 N2 30 leaves\n\
    1 N1 CREATE R1 (4,4,0) A.TXT;0 0 [1,4] = (12,1,0) A.TXT;1\n\
    2 N2 LOOKUP R1 (4,4,0) A.TXT;0 = (12,1,0) A.TXT;1\n\
    end: 2 answered, 0 died, 231 free\n",
);

/// Node 2 finds block 96 in its cache, node 1 writes it, and node 2 reads it anew.
const READS_ANEW: (&str, &str) = (
    "NODES 2\n\
    SCHED 2*9 1*9 2*18\n\
    1 QUOTASET [1,4] 100 0\n\
    2 QUOTASHOW [1,4]\n\
    2 QUOTASHOW [1,4]\n\
    2 QUOTASHOW [1,4]\n",
    "1 N2 1 lock Q PR granted\n\
    2 N2 2 read 96\n\
    3 N2 3 read 97\n\
    4 N2 4 read 98\n\
    5 N2 5 read 99\n\
    6 N2 6 plan of 0 writes\n\
    7 N2 7 answers QUOTASHOW [1,4] = usage 0 quota 1088 overdraft 0; keeps Q NL\n\
    8 N2 8 lock Q PR granted\n\
    9 N2 9 hit 96\n\
    10 N1 1 lock Q PW queued, N2 has PR\n\
    19 N2 10 hit 97\n\
    20 N2 11 hit 98\n\
    21 N2 12 hit 99\n\
    22 N2 13 plan of 0 writes\n\
    23 N2 14 answers QUOTASHOW [1,4] = usage 0 quota 1088 overdraft 0; keeps Q NL\n\
    23 N1 - granted Q PW\n\
    24 N2 15 lock Q PR queued, N1 has PW\n\
    37 N1 10 read 96\n\
    39 N1 11 read 97\n\
    41 N1 12 read 98\n\
    43 N1 13 read 99\n\
    45 N1 14 plan of 1 writes\n\
    47 N1 15 write 96, stage done\n\
    49 N1 16 answers QUOTASET [1,4] 100 0 = set; keeps Q NL\n\
    49 N2 - granted Q PR\n\
    50 N2 34 read 96\n\
    51 N1 17 leaves\n\
    52 N2 35 read 97\n\
    53 N2 36 read 98\n\
    54 N2 37 read 99\n\
    55 N2 38 plan of 0 writes\n\
    56 N2 39 answers QUOTASHOW [1,4] = usage 0 quota 100 overdraft 0; keeps Q NL\n\
    57 N2 40 leaves\n\
    1 N2 QUOTASHOW [1,4] = usage 0 quota 1088 overdraft 0\n\
    2 N2 QUOTASHOW [1,4] = usage 0 quota 1088 overdraft 0\n\
    3 N1 QUOTASET [1,4] 100 0 = set\n\
    4 N2 QUOTASHOW [1,4] = usage 0 quota 100 overdraft 0\n\
    end: 4 answered, 0 died, 231 free\n",
);

// A trace with status 0.
fn trace_of(row: (&'static str, &'static str)) -> Exchange<'static> {
    Exchange {
        words: &[],
        script: row.0,
        code: 0,
        text: row.1,
    }
}

#[test]
fn traces_have_these_lines(rt: HostRuntime) -> Result<(), Fail> {
    for row in [WAITS, READS_ANEW] {
        check(rt.alloc(), FRESH, trace_of(row))?;
    }
    Ok(())
}
