//! The worked rows of the executive: laws that follow from its definitions alone. Each says that the
//! journal is a run of the scripted load under the script, and what the report of its end is.

ghost use Rattle.std.specs.Prelude.{◌≡◌, ◌∷◌, [], codes, true};
ghost use Rattle.exec_model.specs.Report.{report};
ghost use Rattle.exec_model.specs.Runs.{IsRunTo, after};
ghost use Rattle.exec_rows.specs.Checks.{checks, scripted};
ghost use Rattle.exec_rows.specs.Rows.{acts, twice, twice_script, twice_journal, stopped, stopped_journal, counting, counting_script, counting_journal, signalled, signalled_script, signalled_journal, cancelled, cancelled_script, cancelled_journal, terminated, terminated_script, terminated_journal, preempted, preempted_script, preempted_journal, guarded, guarded_script, guarded_journal};

/// `P: PROGRAM; ON ERROR$(2:1) IGNORE; SCHEDULE T PRIORITY(40); SCHEDULE T PRIORITY(40); WAIT FOR NOT T;
/// WRITE(6) 'AGAIN'; SCHEDULE T PRIORITY(40); T: TASK; WRITE(6) 'T'; CLOSE T; CLOSE P;` goes on after the
/// error of its second SCHEDULE, and schedules T once more after T has ended.
pub fn a_failed_schedule_can_be_ignored()
    ensures checked { checks twice ≡ true }
    ensures run { IsRunTo (scripted twice) twice_script 1 twice_journal (after (scripted twice) twice_script twice_journal) }
    ensures told { report (scripted twice) (after (scripted twice) twice_script twice_journal) ≡ codes "6: T\n6: AGAIN\n6: T\nend P.T 0 closed 1\nend P 0 closed 1\nend P.T 0 closed 1\n" }
{}

/// Without the ON ERROR the error of the second SCHEDULE ends P, and T runs all the same.
pub fn a_failed_schedule_stops_its_process()
    ensures checked { checks stopped ≡ true }
    ensures run { IsRunTo (scripted stopped) twice_script 1 stopped_journal (after (scripted stopped) twice_script stopped_journal) }
    ensures told { report (scripted stopped) (after (scripted stopped) twice_script stopped_journal) ≡ codes "6: T\nend P 0 error 2:1 0\nend P.T 0 closed 1\n" }
{}

/// `P: PROGRAM; DECLARE N INTEGER; SCHEDULE T PRIORITY(40), REPEAT EVERY 0.04; T: TASK; N = N + 1;
/// WRITE(6) N, RUNTIME; CLOSE T; CLOSE P;`: as the clock goes on by 80 ms at once, both cycles that have
/// become due run, one after the other.
pub fn cycles_whose_time_has_come_all_run()
    ensures checked { checks counting ≡ true }
    ensures run { IsRunTo (scripted counting) (counting_script 80) 1 (counting_journal 80 2) (after (scripted counting) (counting_script 80) (counting_journal 80 2)) }
    ensures told { report (scripted counting) (after (scripted counting) (counting_script 80) (counting_journal 80 2)) ≡ codes "6: 1 0\n6: 2 0\n6: 3 0\nend P 0 closed 1\nlive P.T\nP.N = 3\n" }
{}

/// The same where the clock goes on by 200 ms: the cycles of 40, 80, 120, 160 and 200 ms all run.
pub fn five_cycles_whose_time_has_come_all_run()
    ensures checked { checks counting ≡ true }
    ensures run { IsRunTo (scripted counting) (counting_script 200) 1 (counting_journal 200 5) (after (scripted counting) (counting_script 200) (counting_journal 200 5)) }
    ensures told { report (scripted counting) (after (scripted counting) (counting_script 200) (counting_journal 200 5)) ≡ codes "6: 1 0\n6: 2 0\n6: 3 0\n6: 4 0\n6: 5 0\n6: 6 0\nend P 0 closed 1\nlive P.T\nP.N = 6\n" }
{}

/// `P: PROGRAM; DECLARE E EVENT, F EVENT LATCHED INITIAL(TRUE); SCHEDULE A PRIORITY(60);
/// SCHEDULE B PRIORITY(60); SIGNAL E; WRITE(6) E, F; A: TASK; WAIT FOR E; WRITE(6) 'A'; CLOSE A; B: TASK;
/// WAIT FOR E AND NOT F; WRITE(6) 'B'; CLOSE B; CLOSE P;`: the signal lets A go on and not B, and then E is
/// FALSE again.
pub fn a_signal_lasts_for_a_moment()
    ensures checked { checks signalled ≡ true }
    ensures run { IsRunTo (scripted signalled) signalled_script 1 signalled_journal (after (scripted signalled) signalled_script signalled_journal) }
    ensures told { report (scripted signalled) (after (scripted signalled) signalled_script signalled_journal) ≡ codes "6: A\n6: 0 1\nend P.A 0 closed 1\nend P 0 closed 1\nlive P.B\nP.F = 1\n" }
{}

/// `P: PROGRAM; SCHEDULE A PRIORITY(60), REPEAT EVERY 1; SCHEDULE B IN 5 PRIORITY(60), REPEAT EVERY 1;
/// SCHEDULE C PRIORITY(60), REPEAT EVERY 1; CANCEL A, B, C; A: TASK; CLOSE A; B: TASK; CLOSE B; C: TASK;
/// WAIT 0.5; WRITE(6) 'C'; CLOSE C; CLOSE P;`: A, between two cycles, and B, before its first, end at once,
/// and C ends after the cycle that it is in.
pub fn a_cancel_waits_for_the_cycle()
    ensures checked { checks cancelled ≡ true }
    ensures run { IsRunTo (scripted cancelled) cancelled_script 1 cancelled_journal (after (scripted cancelled) cancelled_script cancelled_journal) }
    ensures told { report (scripted cancelled) (after (scripted cancelled) cancelled_script cancelled_journal) ≡ codes "6: C\nend P.A 0 cancelled 1\nend P.B 0 cancelled 0\nend P 0 closed 1\nend P.C 500 cancelled 1\n" }
{}

/// `P: PROGRAM; DECLARE K INTEGER LOCK(1); SCHEDULE D DEPENDENT; TERMINATE; D: TASK; U: UPDATE; K = K + 1;
/// K = K + 1; CLOSE U; WRITE(6) 'NO'; CLOSE D; CLOSE P;` on two lanes: D has opened its UPDATE block as P
/// terminates itself, so the block is done, and then both end.
pub fn a_block_is_done_before_the_end()
    ensures checked { checks terminated ≡ true }
    ensures run { IsRunTo (scripted terminated) (terminated_script 6) 2 terminated_journal (after (scripted terminated) (terminated_script 6) terminated_journal) }
    ensures told { report (scripted terminated) (after (scripted terminated) (terminated_script 6) terminated_journal) ≡ codes "end P.D 0 terminated 0\nend P 0 terminated 0\nP.K = 2\n" }
{}

/// The same on one lane: D hasn't begun as P terminates itself, and both end at once.
pub fn a_process_ends_with_its_dependents()
    ensures checked { checks terminated ≡ true }
    ensures run { IsRunTo (scripted terminated) (terminated_script 10) 1 (acts 0 3) (after (scripted terminated) (terminated_script 10) (acts 0 3)) }
    ensures told { report (scripted terminated) (after (scripted terminated) (terminated_script 10) (acts 0 3)) ≡ codes "end P.D 0 terminated 0\nend P 0 terminated 0\nP.K = 0\n" }
{}

/// `P: PROGRAM; SCHEDULE A; SCHEDULE B; A: TASK; WRITE(6) 'A1'; WRITE(6) 'A2'; CLOSE A; B: TASK;
/// WRITE(6) 'B1'; CLOSE B; CLOSE P;`: A gives way after its first line to B, of the same priority.
pub fn a_preempted_process_gives_way()
    ensures checked { checks preempted ≡ true }
    ensures run { IsRunTo (scripted preempted) preempted_script 1 preempted_journal (after (scripted preempted) preempted_script preempted_journal) }
    ensures told { report (scripted preempted) (after (scripted preempted) preempted_script preempted_journal) ≡ codes "6: A1\n6: B1\n6: A2\nend P 0 closed 1\nend P.B 0 closed 1\nend P.A 0 closed 1\n" }
{}

/// `P: PROGRAM; SCHEDULE T PRIORITY(60), REPEAT EVERY 1 UNTIL 2; T: TASK; WRITE(6) RUNTIME; CLOSE T;
/// CLOSE P;`: T has its cycles at 0 s and at 1 s, and at 2 s it is cancelled before its cycle.
pub fn a_guard_ends_the_cycles()
    ensures checked { checks guarded ≡ true }
    ensures run { IsRunTo (scripted guarded) guarded_script 1 guarded_journal (after (scripted guarded) guarded_script guarded_journal) }
    ensures told { report (scripted guarded) (after (scripted guarded) guarded_script guarded_journal) ≡ codes "6: 0\n6: 1\nend P 0 closed 1\nend P.T 2000 cancelled 2\n" }
{}
