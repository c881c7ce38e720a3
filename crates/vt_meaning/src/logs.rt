//! The laws of the log of a store: what its entries leave, and that a job stays. Each contract is a law.

ghost use Rattle.vt_meaning.specs.LogExample.{LogExample};
ghost use Rattle.vt_meaning.specs.LogLaws.{CapsDoNotMatter, JobStays, LogGrows, LogIsConsistent, LogsAreOrderly, LogsLeave, LogsOfParts, OneIsOut, OneJob, PiecesAreNext, StepsAreChanges, StepsLeaveFinal, StoreJobsStay, StoresStayStores};

use crate::real_threads::{look_ups_find_what_is_there, threads_of_texts_act};
use crate::stores::{
    answers_keep_stores_consistent, disturbers_are_listed, final_answers_stay, front_is_tested,
    front_never_falls, opening_store_is_consistent, steps_keep_stores_consistent,
};

/// An entry more leaves what its step leaves.
pub fn logs_grow()
    ensures { LogGrows }
{}

/// The job out to a worker is the same after further entries of other workers.
pub fn jobs_stay()
    ensures { JobStays }
{}

/// A worker has at most one job.
pub fn workers_have_one_job()
    ensures { OneJob }
{}

/// What a log leaves is consistent, whatever it says.
pub fn logs_leave_consistent_stores()
    ensures { LogIsConsistent }
{
    opening_store_is_consistent();
    steps_keep_stores_consistent();
    answers_keep_stores_consistent();
    disturbers_are_listed();
    front_is_tested();
    look_ups_find_what_is_there();
}

/// The piece that a runner gives of a thread of texts is the next one of the log.
pub fn pieces_of_runners_are_next()
    ensures { PiecesAreNext }
{
    threads_of_texts_act();
}

/// What a log leaves of a small session, worked out by hand.
pub fn log_of_two_threads()
    ensures { LogExample }
{}

/// The records of a store are those that its log leaves, and what threads did in them is consistent.
pub fn logs_leave_their_stores()
    ensures { LogsLeave }
{
    opening_store_is_consistent();
    steps_keep_stores_consistent();
    answers_keep_stores_consistent();
    disturbers_are_listed();
    front_is_tested();
    look_ups_find_what_is_there();
}

/// The job out to a worker is the same in two stores of one session whose logs differ by further entries of other workers.
pub fn jobs_of_stores_stay()
    ensures { StoreJobsStay }
{
    logs_leave_their_stores();
    jobs_stay();
}

/// In the log of a store each record that comes back was taken by the worker who brings it, and workers are below 64.
pub fn logs_are_orderly()
    ensures { LogsAreOrderly }
{}

/// No worker has two records out, and the job out to a worker is that of the record.
pub fn one_record_is_out()
    ensures { OneIsOut }
{}

/// A log is one of a store exactly where its front part is and the rest are steps from there; and steps of a store leave stores.
pub fn stores_stay_stores()
    ensures parts { LogsOfParts }
    ensures stores { StoresStayStores }
{}

/// Whatever steps follow, the front does not fall, and what is final stays final, with its answer.
pub fn steps_leave_what_is_final()
    ensures changes { StepsAreChanges }
    ensures stays { StepsLeaveFinal }
{
    front_never_falls();
    final_answers_stay();
}

/// A total that is capped at each addition is the whole total capped, and tells the same of a budget.
pub fn caps_do_not_matter()
    ensures { CapsDoNotMatter }
{}
