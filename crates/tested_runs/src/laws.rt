// What holds of the schedule of every run.

ghost use Rattle.tested_runs.specs.Schedules.{ScheduleHasNoFault, ScheduleIsRead, ScheduleReplays};

/// The schedule of a run is read as exactly the events that were given, where a line can write them.
pub fn schedule_is_read()
    ensures { ScheduleIsRead }
{}

/// A replay of such a schedule meets no faulty line.
pub fn schedule_has_no_fault()
    ensures { ScheduleHasNoFault }
{}

/// A replay of such a schedule that comes to its end had exactly the events of the run.
pub fn schedule_replays()
    ensures { ScheduleReplays }
{}
