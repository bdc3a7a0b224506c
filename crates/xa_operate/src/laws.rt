ghost use Rattle.std.specs.Prelude.{◌≡◌, ℕ, All, List, Option, true};
ghost use Rattle.xa_operate.specs.Agendas.{asked_first, behind};
ghost use Rattle.xa_operate.specs.Previews.{LooksOnly, preview_of};
ghost use Rattle.xa_operate.specs.Rows.{CountedSo, ListedSo, Rises};
ghost use Rattle.xa_operate.specs.Scripts.{NamesWell, TalkReads};
ghost use Rattle.xa_operate.specs.declared.histogram.Histogram.{Histogram};
ghost use Rattle.xa_operate.specs.declared.task.Task.{Task};
ghost use Rattle.xa_script.specs.Requests.{ReadsTexts, is_name};
ghost use Rattle.xa_talk.specs.declared.answered.Answered.{Answered};
ghost use Rattle.xa_xid.specs.Triple.{Triple};

/// `xarm talk` reads the lines of a task's script as what the task asks first.
pub fn talk_reads()
    ensures { (xid_of : List ℕ → Option Triple) → ReadsTexts xid_of → (name : List ℕ) (task : Task)
        → is_name name ≡ true → NamesWell task → TalkReads xid_of name task }
{}

/// What is asked before who is asked has said yes changes nothing.
pub fn previews_look_only()
    ensures first { (name : List ℕ) (task : Task) → All LooksOnly (asked_first name (preview_of task)) }
    ensures further { (task : Task) (answered : Answered) → All LooksOnly (behind (preview_of task) answered) }
{}

/// The buckets that are printed are cumulative. It does nothing.
pub fn buckets_rise()
    ensures { (histogram : Histogram) (numbers : List ℕ) → Rises histogram numbers }
{}

/// Worked rows, by the definitions. It does nothing.
pub fn worked_rows()
    ensures counted { CountedSo }
    ensures listed { ListedSo }
{}
