//! Which todo lists may have been filled or emptied since that was last told.
#![tactic(auto)]

ghost use Rattle.std.specs.Prelude.{◌≡◌, ◌≤◌, ◌<◌, ◌+◌, ◌++◌, ◌∷◌, if◌then◌else◌, [], Bool, true, false, not, List, IfOk, OnOk, OnErr, length, vec_capacity};
ghost use Rattle.bd_space.specs.declared.space.TodoList as lists;
ghost use Rattle.bd_space.specs.declared.space.Work as works;
ghost use Rattle.bd_space.specs.Todo.{same_list, has_work_in};
ghost use Rattle.bd_todo.specs.Stands as todo_table;
ghost use Rattle.bd_calls.specs.Marks as spec;

use bd_space::{TodoList, Work};
use bd_todo::WorkTable;
use std::alloc::{AllocError, Global};

/// A list that may have been filled or emptied.
#[derive(Clone, Copy)]
pub(crate) struct Mark {
    pub(crate) list: TodoList,
    // Whether anything was on it when that was last told.
    pub(crate) had: bool,
}

/// The lists that may have been filled or emptied since that was last told, each marked once.
#[derive(Drop)]
pub(crate) struct Marks {
    pub(crate) marks: Vec<Mark>,
    // Any other list may have been, too: there were more than there was room for, a change was of any lists, or nothing was
    // told yet.
    pub(crate) all: bool,
}

fn is_marked_in(marks: &[Mark], list: TodoList) -> bool
    ensures { result ≡ spec.is_marked_in marks.now list }
{
    marks.iter().any(|m| m.list == list)
}

// The list is put there if it was filled or emptied. Fails for want of memory alone.
fn push_if_changed(
    mark: &Mark,
    todo: &WorkTable,
    reached: &mut Vec<TodoList>,
) -> Result<(), AllocError>
    ensures listed { OnOk result (todo_table.Tells todo.now reached.new.items
        (λ l. reached.old.items ++ (if spec.is_changed l mark.now then mark.now.list ∷ [] else []))) }
    ensures few { OnOk result (length reached.new.items ≤ length reached.old.items + 1) }
    ensures uses { OnOk result (vec_capacity reached.old ≤ vec_capacity reached.new) }
    // Memory was asked for: there was no room.
    ensures grown { OnErr result (vec_capacity reached.old ≤ length reached.old.items) }
{
    if mark.had != todo.has_any(mark.list) {
        reached.push(mark.list)?;
    }
    Ok(())
}

// The marked lists that were filled or emptied. Fails for want of memory alone.
fn list_changed(
    marks: &[Mark],
    todo: &WorkTable,
    reached: &mut Vec<TodoList>,
) -> Result<(), AllocError>
    requires { reached.old.items ≡ [] }
    ensures listed { OnOk result (todo_table.Tells todo.now reached.new.items (λ l. spec.changed_lists l marks.now)) }
    // Memory was asked for: there was room for fewer than there are marks.
    ensures grown { OnErr result (vec_capacity reached.old < length marks.now) }
{
    for mark in marks {
        push_if_changed(mark, todo, reached)?;
    }
    Ok(())
}

impl Marks {
    /// Nothing was told yet. Takes no memory.
    pub(crate) fn new(alloc: Global) -> Marks
        ensures { (list : lists.TodoList) → spec.is_marked result list ≡ true }
    {
        Marks {
            marks: Vec::new(alloc),
            all: true,
        }
    }

    /// Makes room for so many lists in all. Fails for want of memory, and then changes nothing.
    pub(crate) fn reserve(&mut self, lists: usize) -> Result<(), AllocError>
        ensures marks { self.new.marks.items ≡ self.old.marks.items }
        ensures all { self.new.all ≡ self.old.all }
        ensures room { OnOk result (lists ≤ vec_capacity self.new.marks) }
        ensures few { spec.MarksFew 0 self.old self.new }
        // Memory was asked for: there was no room.
        ensures grown { OnErr result (vec_capacity self.old.marks < lists) }
    {
        let more = lists.saturating_sub(self.marks.len());
        self.marks.reserve(more)
    }

    fn has(&self, list: TodoList) -> bool
        ensures { result ≡ spec.is_marked self.now list }
    {
        self.all || is_marked_in(&self.marks, list)
    }

    /// The list may be filled or emptied from now on. Takes no memory: others are marked with it only where there is no room.
    #[inline(always)]
    pub(crate) fn mark(&mut self, todo: &WorkTable, list: TodoList)
        ensures marked { spec.AreMarked (λ l. same_list l list) self.old self.new }
        ensures recalls { spec.Goes self.old self.new todo.now }
        ensures few { spec.MarksFew 1 self.old self.new }
    {
        if self.has(list) {
            return;
        }
        if self.marks.len() < self.marks.capacity() {
            let had = todo.has_any(list);
            self.marks.push_reserved(Mark { list, had });
        } else {
            self.all = true;
        }
    }

    /// The lists of these work items may be emptied from now on.
    pub(crate) fn mark_lists_of(&mut self, todo: &WorkTable, taken: &[Work])
        ensures marked { spec.AreMarked (has_work_in taken.now) self.old self.new }
        ensures recalls { spec.Goes self.old self.new todo.now }
        ensures few { spec.MarksFew (length taken.now) self.old self.new }
    {
        for work in taken {
            self.mark(todo, work.list);
        }
    }

    /// Lists the marked lists that were filled or emptied, and marks none from now on. Whether no others may have been.
    /// Fails for want of memory, and then leaves the marks.
    pub(crate) fn tell(
        &mut self,
        todo: &WorkTable,
        reached: &mut Vec<TodoList>,
    ) -> Result<bool, AllocError>
        ensures listed { IfOk result (λ whole. whole ≡ not self.old.all) }
        ensures exact { IfOk result (λ whole. whole ≡ true → (told : lists.TodoList → Bool) (l : List works.Work)
            → spec.RecallsIn self.old todo.now told → todo_table.WorksAre todo.now l
            → (list : lists.TodoList) → spec.is_among reached.new.items list ≡ spec.differs (told list) (has_work_in l list)) }
        ensures told { OnOk result ((l : List works.Work) → todo_table.WorksAre todo.now l
            → spec.RecallsIn self.new todo.now (λ list. has_work_in l list)) }
        ensures knows { OnOk result (self.new.all ≡ false) }
        ensures room { OnOk result (spec.HasMarkRoom (vec_capacity self.old.marks) self.new) }
        ensures err { OnErr result (self.new ≡ self.old) }
        // Memory was asked for: there was room for fewer than there are marks.
        ensures grown { OnErr result (vec_capacity reached.old < length self.old.marks.items) }
    {
        reached.clear();
        list_changed(&self.marks, todo, reached)?;
        let whole = !self.all;
        self.marks.clear();
        self.all = false;
        Ok(whole)
    }
}
