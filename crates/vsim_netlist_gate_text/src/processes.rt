//! Registers as processes: one process for all with the same clock, enable and reset.

use std::alloc::Global;
use vsim_netlist_design::{Draft, Style};

/// The conditions of a process. Missing ones are empty.
pub(crate) struct Conditions {
    pub(crate) edge: Draft,
    pub(crate) enable: Draft,
    pub(crate) reset: Draft,
    pub(crate) set: Draft,
    pub(crate) load: Draft,
}

impl Drop for Conditions {
    fn drop(self) {
        let Conditions {
            edge: _edge,
            enable: _enable,
            reset: _reset,
            set: _set,
            load: _load,
        } = self;
    }
}

impl Conditions {
    /// The properties that the registers of one process have in common, as a text.
    pub(crate) fn key(&self, alloc: Global, style: Style, has_conflict: bool) -> Draft {
        let mut key = Draft::new(alloc);
        key.push_shown(&(style as u8));
        key.push(if has_conflict { "!" } else { "" });
        for part in [&self.edge, &self.enable, &self.reset, &self.set, &self.load] {
            key.push_draft(part);
            key.push(";");
        }
        key
    }
}

/// The registers of a process: its sensitivity list, its conditions, and its assignments under
/// each.
pub(crate) struct Process {
    style: Style,
    sensitivity: Draft,
    conditions: Conditions,
    /// The assignments under both reset and set.
    pub(crate) conflict: Draft,
    pub(crate) reset: Draft,
    pub(crate) set: Draft,
    pub(crate) load: Draft,
    pub(crate) data: Draft,
}

impl Drop for Process {
    fn drop(self) {
        let Process {
            style: _,
            sensitivity: _sensitivity,
            conditions: _conditions,
            conflict: _conflict,
            reset: _reset,
            set: _set,
            load: _load,
            data: _data,
        } = self;
    }
}

/// Adds the head of a branch.
fn push_head(text: &mut Draft, condition: &Draft, is_first: bool) {
    if condition.read_for(text).is_empty() {
        return text.push("else ");
    }
    text.push(if is_first { "if " } else { "elsif " });
    text.push_draft(condition);
    text.push("then ");
}

/// Adds a branch, unless it assigns nothing. Returns whether the next one is the first.
fn push_branch(text: &mut Draft, condition: &Draft, assigned: &Draft, is_first: bool) -> bool {
    if assigned.read_for(text).is_empty() {
        return is_first;
    }
    push_head(text, condition, is_first);
    text.push_draft(assigned);
    false
}

/// The conjunction of two conditions, each of which may be empty.
fn both(alloc: Global, first: &Draft, second: &Draft) -> Draft {
    let mut text = Draft::new(alloc);
    text.push_draft(first);
    if !first.read_for(&mut text).is_empty() && !second.read_for(&mut text).is_empty() {
        text.push("and ");
    }
    text.push_draft(second);
    text
}

impl Process {
    /// A process without assignments.
    pub(crate) fn new(
        alloc: Global,
        style: Style,
        sensitivity: Draft,
        conditions: Conditions,
    ) -> Process {
        Process {
            style,
            sensitivity,
            conditions,
            conflict: Draft::new(alloc),
            reset: Draft::new(alloc),
            set: Draft::new(alloc),
            load: Draft::new(alloc),
            data: Draft::new(alloc),
        }
    }

    /// Adds the statements of a process with an asynchronous reset, or without one.
    fn push_at_any_time(&self, alloc: Global, text: &mut Draft) {
        let conditions = &self.conditions;
        let conflict = both(alloc, &conditions.reset, &conditions.set);
        let is_first = push_branch(text, &conflict, &self.conflict, true);
        let is_first = push_branch(text, &conditions.reset, &self.reset, is_first);
        let is_first = push_branch(text, &conditions.set, &self.set, is_first);
        let is_first = push_branch(text, &conditions.load, &self.load, is_first);
        let condition = both(alloc, &conditions.edge, &conditions.enable);
        let _ = push_branch(text, &condition, &self.data, is_first);
        text.push("end if;");
    }

    /// Adds the branches of a process with a synchronous reset, inside its edge.
    fn push_inside(&self, text: &mut Draft, enable: &Draft) {
        let is_first = push_branch(text, &self.conditions.reset, &self.reset, true);
        let _ = push_branch(text, enable, &self.data, is_first);
        text.push("end if;end if;");
    }

    /// Adds the statements of a process with a synchronous reset.
    fn push_at_edge(&self, alloc: Global, text: &mut Draft) {
        let (enable, none) = (&self.conditions.enable, Draft::new(alloc));
        let is_outside = self.style == Style::SynchronousEnabled;
        let (outer, inner) = if is_outside {
            (enable, &none)
        } else {
            (&none, enable)
        };
        push_head(text, &both(alloc, &self.conditions.edge, outer), true);
        self.push_inside(text, inner);
    }

    /// Adds its statements.
    pub(crate) fn push_statements(&self, alloc: Global, text: &mut Draft) {
        match self.style {
            Style::Synchronous | Style::SynchronousEnabled => self.push_at_edge(alloc, text),
            _ => self.push_at_any_time(alloc, text),
        }
    }

    /// Adds the process.
    pub(crate) fn push(&self, alloc: Global, text: &mut Draft) {
        text.push("process(");
        text.push_draft(&self.sensitivity);
        text.push(")begin ");
        self.push_statements(alloc, text);
        text.push("end process;\n");
    }
}
