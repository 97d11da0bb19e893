//! The gates and registers of a netlist as statements.

use crate::processes::{Conditions, Process};
use crate::timed::{computation, enabled_computation, timed};
use indexmap::IndexSet;
use std::alloc::{AllocError, Global};
use vsim_netlist_design::{
    Bit, Cell, Conflict, Control, Draft, Gate, GateCell, Level, Netlist, Register, Style, Timing,
    push,
};
use vsim_netlist_entities::{TimedProcess, put_processes};
use vsim_netlist_signals::{
    Delay, Expression, NamedDelay, Statements, delay_of, function_expression, gate_expression,
    literal, named, push_assignment, push_literal, push_stored, push_tristate,
};
use vsim_netlist_uses::{Uses, is_marked, longest_within, writing_order};

/// The maximum depth of parentheses in a nested gate.
const DEEPEST: usize = 30;

/// The cells of a netlist, as far as they have been written.
struct Builder<'a> {
    alloc: Global,
    netlist: &'a Netlist,
    delays: &'a [NamedDelay],
    uses: &'a Uses,
    within: &'a [bool],
    statements: &'a mut Statements,
    /// The expressions of nets whose gates are nested.
    expressions: Vec<Option<Expression>>,
    keys: IndexSet<String>,
    groups: Vec<Process>,
    /// The processes with delays of paths.
    timed: Vec<TimedProcess>,
}

/// Written by hand so that code which drops it needs no proof about its contents.
impl Drop for Builder<'_> {
    fn drop(self) {
        let Builder {
            alloc: _,
            netlist: _,
            delays: _,
            uses: _,
            within: _,
            statements: _,
            expressions,
            keys,
            groups,
            timed,
        } = self;
        drop(expressions);
        drop(keys);
        drop(groups);
        drop(timed);
    }
}

/// This number of nets without an expression.
fn no_expressions(alloc: Global, count: usize) -> Result<Vec<Option<Expression>>, AllocError> {
    let mut expressions = Vec::new(alloc);
    for _ in 0..count {
        push(&mut expressions, None)?;
    }
    Ok(expressions)
}

/// The name of a net as an expression.
fn name_of(statements: &mut Statements, place: usize) -> Expression {
    statements.ensure(place);
    named(statements.alloc, statements.signals.text(place))
}

/// The maximum length, in bytes, of a gate that is nested in the cell that reads it.
fn room_at_reader(netlist: &Netlist, uses: &Uses, place: usize) -> usize {
    let Some(net) = uses.nets.get(place) else {
        return 0;
    };
    match netlist.cells.get(net.reader) {
        Some(reader) => longest_within(reader, net.pin),
        None => 0,
    }
}

/// Writes the assignment of a net.
fn assign(statements: &mut Statements, place: usize, expression: &Expression, delay: Delay) {
    statements.ensure(place);
    statements.count();
    let target = statements.signals.text(place);
    let text = &mut statements.body;
    push_assignment(statements.alloc, text, target, expression, delay)
}

/// Writes the assignment of a net that a bit enables.
fn assign_enabled(
    statements: &mut Statements,
    place: usize,
    value: &Expression,
    enable: Control,
    delay: Delay,
) {
    let is_high = enable.is_high;
    let enable = statements.signals.of_bit(enable.bit);
    statements.ensure(place);
    statements.count();
    let signals = &statements.signals;
    let (target, enable) = (signals.text(place), signals.text(enable));
    push_tristate(
        &mut statements.body,
        target,
        value,
        (enable, is_high),
        delay,
    )
}

/// The condition under which a control is active; empty if there is none.
fn condition(statements: &mut Statements, control: Option<Control>) -> Draft {
    let mut text = Draft::new(statements.alloc);
    if let Some(control) = control {
        text.push(statements.bit_name(control.bit));
        text.push(if control.is_high { "='1'" } else { "='0'" });
    }
    text
}

/// The condition of an edge of a clock.
fn edge(statements: &mut Statements, control: Option<Control>) -> Draft {
    let mut text = Draft::new(statements.alloc);
    if let Some(control) = control {
        text.push(if control.is_high {
            "rising_edge("
        } else {
            "falling_edge("
        });
        text.push(statements.bit_name(control.bit));
        text.push(")");
    }
    text
}

/// The conditions of a register.
fn conditions(statements: &mut Statements, register: &Register) -> Conditions {
    let edge = edge(statements, register.clock);
    let enable = condition(statements, register.enable);
    let reset = condition(statements, register.reset);
    let set = condition(statements, register.set);
    let load = condition(statements, register.load);
    Conditions {
        edge,
        enable,
        reset,
        set,
        load,
    }
}

/// Adds a name to a list.
fn push_item(list: &mut Draft, name: &str) {
    if !list.so_far().is_empty() {
        list.push(",");
    }
    list.push(name);
}

/// Adds the name of a control signal to a list, unless one of two before it is the same.
fn push_listed(
    statements: &mut Statements,
    list: &mut Draft,
    control: Option<Control>,
    first: Option<Control>,
    second: Option<Control>,
) {
    if let Some(control) = control {
        let bit = control.bit;
        if !is_at(first, bit) && !is_at(second, bit) {
            push_item(list, statements.bit_name(bit));
        }
    }
}

/// The reset and the set of a register that may come at any time; `None` if so may the rest.
fn at_any_time(register: &Register) -> Option<(Option<Control>, Option<Control>)> {
    match register.style {
        Style::Plain | Style::Synchronous | Style::SynchronousEnabled => Some((None, None)),
        Style::Asynchronous | Style::SetReset => Some((register.reset, register.set)),
        _ => None,
    }
}

/// The sensitivity list of a register: its clock and its asynchronous resets, each once.
fn sensitivity(statements: &mut Statements, register: &Register) -> Draft {
    let Some((reset, set)) = at_any_time(register) else {
        return Draft::of(statements.alloc, "all");
    };
    let (mut list, clock) = (Draft::new(statements.alloc), register.clock);
    push_listed(statements, &mut list, clock, None, None);
    push_listed(statements, &mut list, reset, clock, None);
    push_listed(statements, &mut list, set, clock, reset);
    list
}

/// The index of the process with a key, and whether it is new.
fn find_group(keys: &mut IndexSet<String>, key: Draft) -> Result<(usize, bool), AllocError> {
    let key = key.finish()?;
    let found = keys.insert_full(key)?;
    Ok(found)
}

/// The table of a look-up table; empty for other gates.
fn table_of(gate: &GateCell) -> &str {
    match &gate.table {
        Some(table) => table.as_str(),
        None => "",
    }
}

impl<'a> Builder<'a> {
    /// No cell has been added to these statements.
    fn new(
        statements: &'a mut Statements,
        netlist: &'a Netlist,
        delays: &'a [NamedDelay],
        uses: &'a Uses,
        within: &'a [bool],
    ) -> Result<Builder<'a>, AllocError> {
        let alloc = statements.alloc;
        let expressions = no_expressions(alloc, uses.nets.len())?;
        Ok(Builder {
            alloc,
            netlist,
            delays,
            uses,
            within,
            statements,
            expressions,
            keys: IndexSet::new(alloc),
            groups: Vec::new(alloc),
            timed: Vec::new(alloc),
        })
    }

    /// The expression of a net whose gate is nested in the cell that reads it.
    fn take_expression(&mut self, place: usize) -> Option<Expression> {
        match self.expressions.get_mut(place) {
            Some(expression) => expression.take(),
            None => None,
        }
    }

    /// A net as an expression.
    fn net(&mut self, place: usize) -> Expression {
        match self.take_expression(place) {
            Some(expression) => expression,
            None => name_of(self.statements, place),
        }
    }

    /// A bit as an expression.
    fn operand(&mut self, bit: Bit) -> Expression {
        match bit {
            Bit::Constant(level) => literal(self.alloc, level),
            Bit::Net(place) => self.net(place),
        }
    }

    /// The inputs of a gate as expressions.
    fn operands(&mut self, bits: &[Bit]) -> Result<Vec<Expression>, AllocError> {
        let mut operands = Vec::new(self.alloc);
        for bit in bits {
            push(&mut operands, self.operand(*bit))?;
        }
        Ok(operands)
    }

    /// The maximum length, in bytes, at which the gate of a net is nested in the cell that reads
    /// it; 0 if it may not be nested.
    fn room_within(&self, place: usize) -> usize {
        if is_marked(self.within, place) && !self.statements.has_name(place) {
            room_at_reader(self.netlist, self.uses, place)
        } else {
            0
        }
    }

    /// Whether the expression of a net is kept for the cell that reads it.
    fn is_kept(&mut self, place: usize, expression: &Expression) -> bool {
        let room = self.room_within(place);
        let text = expression.text.read_for(&mut self.statements.body);
        expression.depth < DEEPEST && text.len() <= room
    }

    /// Keeps the expression of a net, or writes it.
    fn put(&mut self, place: usize, expression: Expression, delay: Delay) {
        if !self.is_kept(place, &expression) {
            return assign(self.statements, place, &expression, delay);
        }
        if let Some(kept) = self.expressions.get_mut(place) {
            *kept = Some(expression);
        }
    }

    /// The data of a three-state buffer: that of a library's cell is a function of its inputs.
    fn tristate_value(&mut self, gate: &GateCell, data: &[Bit]) -> Result<Expression, AllocError> {
        let operands = self.operands(data)?;
        if gate.steps.is_empty() {
            return gate_expression(self.alloc, Gate::Buf, "", operands.as_slice());
        }
        function_expression(self.alloc, gate.steps.as_slice(), operands.as_slice())
    }

    /// Writes a three-state buffer.
    fn put_tristate(&mut self, gate: &GateCell, delay: Delay) -> Result<(), AllocError> {
        if let [data @ .., enable] = gate.inputs.as_slice() {
            let value = self.tristate_value(gate, data)?;
            let enable = Control {
                bit: *enable,
                is_high: !gate.is_low,
            };
            assign_enabled(self.statements, gate.output, &value, enable, delay);
        }
        Ok(())
    }

    /// The expression of a gate.
    fn expression(&mut self, gate: &GateCell) -> Result<Expression, AllocError> {
        let operands = self.operands(gate.inputs.as_slice())?;
        if !gate.steps.is_empty() {
            return function_expression(self.alloc, gate.steps.as_slice(), operands.as_slice());
        }
        gate_expression(self.alloc, gate.gate, table_of(gate), operands.as_slice())
    }

    /// Adds a gate.
    fn take_gate(&mut self, gate: &GateCell) -> Result<(), AllocError> {
        let name = if gate.is_inner { "" } else { gate.gate.name() };
        let delay = delay_of(self.delays, name);
        if gate.gate == Gate::Tristate {
            return self.put_tristate(gate, delay);
        }
        let expression = self.expression(gate)?;
        self.put(gate.output, expression, delay);
        Ok(())
    }

    /// The index of the process for the registers like this one.
    fn group(&mut self, register: &Register) -> Result<usize, AllocError> {
        let conditions = conditions(self.statements, register);
        let key = conditions.key(self.alloc, register.style, register.conflict.is_some());
        let (place, is_new) = find_group(&mut self.keys, key)?;
        if is_new {
            self.add_group(register, conditions)?;
        }
        Ok(place)
    }

    /// Adds a process for the registers like this one.
    fn add_group(&mut self, register: &Register, conditions: Conditions) -> Result<(), AllocError> {
        let sensitivity = sensitivity(self.statements, register);
        self.statements.count_process();
        let process = Process::new(self.alloc, register.style, sensitivity, conditions);
        push(&mut self.groups, process)
    }

    /// The expression of a register's data, if it is connected.
    fn stored(&mut self, bit: Option<Bit>) -> Option<Expression> {
        match bit {
            Some(bit) => Some(self.operand(bit)),
            None => None,
        }
    }

    /// Adds a register.
    fn take_register(&mut self, register: &Register) -> Result<(), AllocError> {
        self.statements.ensure(register.output);
        self.statements.count_driver();
        let place = self.group(register)?;
        self.put_register(register, place);
        Ok(())
    }

    /// Adds a register to the process at an index.
    fn put_register(&mut self, register: &Register, place: usize) {
        let data = self.stored(register.data);
        let loaded = self.stored(register.loaded);
        let is_latch = register.clock.is_none();
        let delay = delay_of(self.delays, if is_latch { "latch" } else { "dff" });
        let target = self.statements.signals.text(register.output);
        if let Some(process) = self.groups.get_mut(place) {
            fill_levels(process, register, target, delay);
            fill(self.alloc, &mut process.data, target, &data, delay);
            fill(self.alloc, &mut process.load, target, &loaded, delay);
        }
    }

    /// The gate inside of a cell that drives a bit, if there is one.
    fn inner_gate(&self, bit: Bit) -> Option<&'a GateCell> {
        let (netlist, uses) = (self.netlist, self.uses);
        let Bit::Net(place) = bit else {
            return None;
        };
        let driver = uses.nets.get(place)?.driver;
        match (netlist.cells.get(driver), netlist.timings.get(driver)) {
            (Some(Cell::Gate(gate)), Some(None)) if gate.is_inner && gate.output == place => {
                Some(gate)
            }
            _ => None,
        }
    }

    /// A bit as an expression in a process with delays of paths. A gate inside of the same cell is
    /// a part of it, so that both see a change at once.
    fn whole_operand(&mut self, bit: Bit) -> Result<Expression, AllocError> {
        match self.inner_gate(bit) {
            Some(gate) => self.expression(gate),
            None => Ok(self.operand(bit)),
        }
    }

    /// The same as an operand of a comparison: one of literals alone is a signal.
    fn condition_operand(&mut self, bit: Bit) -> Result<Expression, AllocError> {
        let operand = self.whole_operand(bit)?;
        if operand.has_name {
            return Ok(operand);
        }
        Ok(named(self.alloc, self.statements.bit_name(bit)))
    }

    /// The data of a three-state buffer with delays of its paths.
    fn timed_value(&mut self, gate: &GateCell, data: &[Bit]) -> Result<Expression, AllocError> {
        match data {
            [bit] if gate.steps.is_empty() => self.whole_operand(*bit),
            _ => self.tristate_value(gate, data),
        }
    }

    /// The value of a three-state buffer with delays of its paths, if it is connected.
    fn enabled(&mut self, gate: &GateCell) -> Result<Draft, AllocError> {
        let [data @ .., enable] = gate.inputs.as_slice() else {
            return Ok(Draft::new(self.alloc));
        };
        let value = self.timed_value(gate, data)?;
        let enable = self.condition_operand(*enable)?;
        Ok(enabled_computation(self.alloc, &value, &enable, !gate.is_low))
    }

    /// The data of a register with delays of its paths, if they are connected.
    fn timed_data(&mut self, register: &Register) -> Result<Option<Expression>, AllocError> {
        match register.data {
            Some(bit) if register.clock.is_none() => Ok(Some(self.whole_operand(bit)?)),
            data => Ok(self.stored(data)),
        }
    }

    /// Adds the process of a net whose new value these statements compute.
    fn put_timed(
        &mut self,
        place: usize,
        timing: &Timing,
        computed: &Draft,
        initial: Option<Level>,
    ) -> Result<(), AllocError> {
        let process = timed(self.statements, place, timing, computed, initial)?;
        push(&mut self.timed, process)
    }

    /// Adds a gate with the delays of its paths.
    fn take_timed_gate(&mut self, gate: &GateCell, timing: &Timing) -> Result<(), AllocError> {
        if gate.gate == Gate::Tristate {
            let (computed, first) = (self.enabled(gate)?, Some(Level::Unknown));
            return self.put_timed(gate.output, timing, &computed, first);
        }
        let expression = self.expression(gate)?;
        if let Some(delay) = timing.only() {
            let (rise, fall) = (delay, delay);
            assign(
                self.statements,
                gate.output,
                &expression,
                Delay { rise, fall },
            );
            return Ok(());
        }
        let computed = computation(self.alloc, &expression);
        self.put_timed(gate.output, timing, &computed, None)
    }

    /// The statements that compute the new value of a register.
    fn computed(&mut self, register: &Register) -> Result<Draft, AllocError> {
        let conditions = conditions(self.statements, register);
        let data = self.timed_data(register)?;
        Ok(statements_of(self.alloc, register, conditions, &data))
    }

    /// Adds a register with the delays of its paths.
    fn take_timed_register(
        &mut self,
        register: &Register,
        timing: &Timing,
    ) -> Result<(), AllocError> {
        let computed = self.computed(register)?;
        let initial = match self.netlist.nets.get(register.output) {
            Some(net) => net.initial,
            None => None,
        };
        self.put_timed(register.output, timing, &computed, initial)
    }

    /// Adds a cell with the delays of its paths.
    fn take_timed(&mut self, cell: &Cell, timing: &Timing) -> Result<(), AllocError> {
        match cell {
            Cell::Gate(gate) => self.take_timed_gate(gate, timing),
            Cell::Register(register) => self.take_timed_register(register, timing),
        }
    }

    /// Adds a cell without them.
    fn take_plain(&mut self, cell: &Cell) -> Result<(), AllocError> {
        match cell {
            Cell::Gate(gate) => self.take_gate(gate),
            Cell::Register(register) => self.take_register(register),
        }
    }

    /// Adds the cell at an index.
    fn take_cell(&mut self, place: usize) -> Result<(), AllocError> {
        let netlist = self.netlist;
        match (netlist.cells.get(place), netlist.timings.get(place)) {
            (Some(cell), Some(Some(timing))) => self.take_timed(cell, timing),
            (Some(cell), _) => self.take_plain(cell),
            (None, _) => Ok(()),
        }
    }

    /// Adds the cells at these indices.
    fn take_each(&mut self, places: &[usize]) -> Result<(), AllocError> {
        for place in places {
            self.take_cell(*place)?;
        }
        Ok(())
    }

    /// Adds all cells, nested ones first.
    fn take_cells(&mut self) -> Result<(), AllocError> {
        let order = writing_order(self.alloc, self.netlist, self.uses, self.within)?;
        self.take_each(order.as_slice())
    }

    /// Writes the processes.
    fn put_processes(&mut self) -> Result<(), AllocError> {
        for process in self.groups.iter() {
            process.push(self.alloc, &mut self.statements.body);
        }
        put_processes(self.statements, self.timed.as_slice())
    }

    /// Writes all cells.
    fn put_all(&mut self) -> Result<(), AllocError> {
        self.take_cells()?;
        self.put_processes()
    }
}

/// Whether a control is connected with a bit.
fn is_at(control: Option<Control>, bit: Bit) -> bool {
    match control {
        Some(control) => control.bit == bit,
        None => false,
    }
}

/// Adds the assignment of a register, if it is connected.
fn fill(alloc: Global, text: &mut Draft, target: &str, value: &Option<Expression>, delay: Delay) {
    if let Some(value) = value {
        push_stored(alloc, text, target, value, delay);
    }
}

/// Adds the set and reset of a register.
fn fill_levels(process: &mut Process, register: &Register, target: &str, delay: Delay) {
    if register.reset.is_some() {
        let level = register.value;
        push_literal(&mut process.reset, target, level.literal(), delay.to(level));
    }
    if register.set.is_some() {
        let level = level_of_set(register.value);
        push_literal(&mut process.set, target, level.literal(), delay.to(level));
    }
    fill_conflict(process, register, target, delay);
}

/// Adds the computation of a register's value, if there is one.
fn compute(alloc: Global, text: &mut Draft, value: &Option<Expression>) {
    if let Some(value) = value {
        text.push_draft(&computation(alloc, value));
    }
}

/// Adds the computation of a level.
fn compute_level(text: &mut Draft, level: Level) {
    text.push_all(&["n:=", level.literal(), ";"]);
}

/// Adds the computations of what a register's set and reset give.
fn compute_levels(process: &mut Process, register: &Register) {
    if register.reset.is_some() {
        compute_level(&mut process.reset, register.value);
    }
    if register.set.is_some() {
        compute_level(&mut process.set, level_of_set(register.value));
    }
    match register.conflict {
        Some(Conflict::Level(level)) => compute_level(&mut process.conflict, level),
        Some(Conflict::Kept) => process.conflict.push("null;"),
        None => {}
    }
}

/// The statements that compute the new value of a register with these data.
fn statements_of(
    alloc: Global,
    register: &Register,
    conditions: Conditions,
    data: &Option<Expression>,
) -> Draft {
    let mut process = Process::new(alloc, register.style, Draft::new(alloc), conditions);
    compute_levels(&mut process, register);
    compute(alloc, &mut process.data, data);
    let mut text = Draft::new(alloc);
    process.push_statements(alloc, &mut text);
    text
}

/// The value that a set gives, given that of the reset.
fn level_of_set(value: Level) -> Level {
    if value == Level::One {
        Level::Zero
    } else {
        Level::One
    }
}

/// Adds what happens while a register is both set and reset, if that is not the reset.
fn fill_conflict(process: &mut Process, register: &Register, target: &str, delay: Delay) {
    match register.conflict {
        Some(Conflict::Level(level)) => {
            push_literal(
                &mut process.conflict,
                target,
                level.literal(),
                delay.to(level),
            );
        }
        Some(Conflict::Kept) => process.conflict.push("null;"),
        None => {}
    }
}

/// Writes the cells of a netlist, given the uses of its nets and which of them may be nested.
pub fn put_cells(
    statements: &mut Statements,
    netlist: &Netlist,
    delays: &[NamedDelay],
    uses: &Uses,
    within: &[bool],
) -> Result<(), AllocError> {
    let mut builder = Builder::new(statements, netlist, delays, uses, within)?;
    builder.put_all()
}
