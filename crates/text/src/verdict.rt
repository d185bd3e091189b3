// What `sheetverdict` prints of a verdict (document 01, 'The hall sheet').
ghost use Rattle.std.specs.Prelude.{◌≡◌, [], ◌∷◌, ◌≤◌, length, take};
ghost use Rattle.text.specs.Parts.{Adds};
ghost use Rattle.text.specs.Text.{line, numbered, text_with};
ghost use Rattle.text.specs.Verdict.{answer_word, named_word, ring_word, task_in, tasks_in, verdict_text};

use crate::text::Text;
use judge::verdict::Verdict;

fn answer_line(text: Text, answer: u32) -> Text
    ensures { Adds text (line answer_word (answer ∷ [])) result }
{
    text.word(b"answer").number(u64::from(answer)).byte(b'\n')
}

// The task's number, where the task is in the set.
fn task_in(text: Text, set: u32, task: usize) -> Text
    ensures { Adds text (numbered (task_in set task)) result }
{
    if sets::has(set, task) {
        text.number(task as u64)
    } else {
        text
    }
}

fn named_line(text: Text, named: u32) -> Text
    ensures { Adds text (line named_word (tasks_in named 32)) result }
{
    let mut next = text.word(b"named");
    for task in 0..32 {
        next = task_in(next, named, task);
    }
    next.byte(b'\n')
}

fn ring_line(text: Text, verdict: Verdict) -> Text
    ensures { Adds text (line ring_word (take verdict.length verdict.ring)) result }
{
    let ring = verdict.ring;
    let end = verdict.length.min(32) as usize;
    let mut next = text.word(b"ring");
    for &task in &ring[..end] {
        next = next.number(u64::from(task));
    }
    next.byte(b'\n')
}

pub fn text_of(verdict: Verdict) -> Text
    ensures says { result ≡ text_with (verdict_text verdict) }
    ensures whole { length (verdict_text verdict) ≤ 256 }
{
    let answered = answer_line(Text::empty(), verdict.answer);
    if verdict.answer != 0 {
        return answered;
    }
    ring_line(named_line(answered, verdict.named), verdict)
}
