//! The order of the numbers: those that a routine calls come before it.
//!
//! What is left to do stands in a list, the last of which is done next, so that the native stack
//! does not grow with the depth of calls.

ghost use Rattle.std.specs.Prelude.{◌≡◌, ◌<◌, ◌+◌, ◌++◌, IfOk, OnOk, map, reverse};
ghost use Rattle.syntax_tree.specs.Placed.{placed, plain};
ghost use Rattle.code_spec.specs.Numbering.{visit as visit_of, numbered};
ghost use Rattle.code_names.specs.Tasks.{visit_task, after_tasks, visit_count, task_count};
ghost use Rattle.code_names.specs.Texts.{text_of, texts_of};

use crate::directory::Directory;
use crate::text::Body;
use crate::text_list::TextList;
use out_of_memory::OutOfMemory;
use std::alloc::Global;

/// Something that is left to do.
#[derive(Clone, Copy)]
enum Task<'a> {
    /// A routine is to be visited. The number says how deep calls go from there.
    Visit { text: Body<'a>, depth: usize },
    /// A routine is to get its number: those that it calls have theirs.
    Number(Body<'a>),
}

/// Lists visits of these routines, so that the first one is visited next.
fn list_visits<'a>(
    tasks: &mut Vec<Task<'a>>,
    texts: &[Body<'a>],
    depth: usize,
) -> Result<(), OutOfMemory>
    ensures { OnOk result (tasks.new.items ≡
        tasks.old.items ++ map (visit_task depth) (reverse texts.now)) }
{
    tasks.extend(
        texts
            .iter()
            .rev()
            .map(|text| Task::Visit { text: *text, depth }),
    )?;
    Ok(())
}

/// Lists what a visit comes to: nothing where the routine has its number or calls go no deeper; else
/// visits of those that it calls, and then its number.
fn visit<'a>(
    alloc: Global,
    directory: &Directory<'a>,
    done: &TextList<'a>,
    tasks: &mut Vec<Task<'a>>,
    text: Body<'a>,
    depth: usize,
) -> Result<(), OutOfMemory>
    ensures visits { let g = plain (placed directory.now) in
        OnOk result (after_tasks g tasks.new.items (texts_of done.now) ≡
        after_tasks g tasks.old.items (visit_of depth g (texts_of done.now) (text_of text.entry))) }
    ensures falls { let g = plain (placed directory.now) in
        OnOk result (task_count g tasks.new.items <
        task_count g tasks.old.items + visit_count depth g (text_of text.entry)) }
{
    if depth == 0 || done.index(text.owner, &text.routine.name).is_some() {
        return Ok(());
    }
    let callees = directory.callees(alloc, text)?;
    tasks.push(Task::Number(text))?;
    list_visits(tasks, callees.as_slice(), depth - 1)
}

/// All routines and entries by number.
pub fn ordered<'a>(alloc: Global, directory: &Directory<'a>) -> Result<TextList<'a>, OutOfMemory>
    ensures { IfOk result (λ order. texts_of order ≡ numbered (plain (placed directory.now))) }
{
    let texts = directory.texts();
    let mut tasks = Vec::new(alloc);
    list_visits(&mut tasks, texts.as_slice(), texts.len())?;
    let mut order = TextList::new(alloc);
    while let Some(task) = tasks.pop() {
        match task {
            Task::Visit { text, depth } => {
                visit(alloc, directory, &order, &mut tasks, text, depth)?;
            }
            Task::Number(text) => order.push(text)?,
        }
    }
    Ok(order)
}
