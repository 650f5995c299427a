//! Where the frames stand that are looked for.

ghost use Rattle.std.specs.Prelude.{◌≡◌, ◌<◌, IfSome, length, map, vec_len, vec_capacity};
ghost use Rattle.bd_keys.specs.Tables.{AnswersBy};
ghost use Rattle.bd_frames.specs.declared.frame.Row as declared;
ghost use Rattle.bd_frames.specs.Places.{AreRising, IsAt, IsNewest, turned};
ghost use Rattle.bd_frames.specs.Linked.{IsStack};

use crate::frame::{Row, takes_part};

/// The index of the frame that was made there: found by halves.
pub(crate) fn index_of(rows: &[Row], made: u64) -> Option<usize>
    ensures within { IfSome result (λ i. i < length rows.now) }
    ensures found { AreRising rows.now → IsAt made rows.now result }
{
    let i = rows.partition_point(|r| r.frame.made < made);
    if i < rows.len() && rows[i].frame.made == made {
        Some(i)
    } else {
        None
    }
}

/// The row of the frame that was made there, if one was, becomes what `f` makes of it.
pub(crate) fn turn<F: Fn(Row) -> Row>(rows: &mut Vec<Row>, made: Option<u64>, f: F)
    requires callable { F.IsAlwaysCallable f }
    ensures rows { (g : declared.Row → declared.Row) → AnswersBy (λ x y. F.post f x y) g → AreRising rows.old.items
        → rows.new.items ≡ map (turned made g) rows.old.items }
    ensures len { vec_len rows.new ≡ vec_len rows.old }
    ensures capacity { vec_capacity rows.new ≡ vec_capacity rows.old }
{
    if let Some(made) = made {
        if let Some(i) = index_of(rows, made) {
            rows[i] = f(rows[i]);
        }
    }
}

/// The index of the newest frame in which the thread takes part, of those made up to the bound of its stack.
pub(crate) fn newest_part(rows: &[Row], seat: u32, bound: Option<u64>) -> Option<usize>
    ensures within { IfSome result (λ i. i < length rows.now) }
    ensures newest { AreRising rows.now → IsStack seat bound rows.now → IsNewest seat rows.now result }
{
    let mut from = match bound {
        Some(bound) => rows.partition_point(|r| r.frame.made <= bound),
        None => rows.len(),
    };
    while from > 0 {
        from -= 1;
        if takes_part(&rows[from].frame, seat) {
            return Some(from);
        }
    }
    None
}
