//! What holds of the texts of schedules and of choices.
ghost use Rattle.brisk_schedule.specs.Laws.{ChoicesDiffer, ChoicesStand, SchedulesDiffer, SchedulesStand};

/// The text of a schedule fails at no line, so that it is read.
pub fn schedules_stand()
    ensures { SchedulesStand }
{}

/// The text of choices fails at no line, so that it is read.
pub fn choices_stand()
    ensures { ChoicesStand }
{}

/// Two schedules of a program with one text are the same.
pub fn schedules_differ()
    ensures { SchedulesDiffer }
{}

/// Two lists of choices of a sequential program with one text are the same.
pub fn choices_differ()
    ensures { ChoicesDiffer }
{}
