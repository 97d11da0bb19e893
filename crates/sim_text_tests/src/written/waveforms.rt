use crate::line::Line;
use crate::written::expressions::put_expression;
use sim_logic::Unit;
use sim_text_tree::time::TimeLiteral;
use sim_text_tree::waveform::{
    ConcurrentSignalAssignment, ConditionalWaveforms, DelayMechanism, Element,
};

/// The name of a unit of time, preceded by a space.
pub fn unit_name(unit: Unit) -> &'static str {
    match unit {
        Unit::Fs => " fs",
        Unit::Ps => " ps",
        Unit::Ns => " ns",
        Unit::Us => " us",
        Unit::Ms => " ms",
        Unit::Sec => " sec",
        Unit::Min => " min",
        Unit::Hr => " hr",
    }
}

/// Appends the digits of a time with their place, and its unit.
pub fn put_time(line: &mut Line, time: &TimeLiteral) {
    line.put_digits(time.digits(), time.at());
    line.put(unit_name(time.unit()));
}

/// Appends elements with their delays, separated by commas.
pub fn put_waveform(line: &mut Line, waveform: &[Element]) {
    let mut between = "";
    for element in waveform {
        line.put(between);
        put_expression(line, &element.value);
        if let Some(time) = &element.after {
            line.put(" after ");
            put_time(line, time);
        }
        between = ",";
    }
}

/// Appends a delay mechanism, if one is written.
pub fn put_delay(line: &mut Line, delay: &DelayMechanism) {
    match delay {
        DelayMechanism::Unwritten => {}
        DelayMechanism::Transport => line.put("transport "),
        DelayMechanism::Inertial => line.put("inertial "),
        DelayMechanism::Reject(limit) => {
            line.put("reject ");
            put_time(line, limit);
            line.put(" inertial ");
        }
    }
}

/// Appends conditional waveforms with their conditions.
fn put_waveforms(line: &mut Line, waveforms: &ConditionalWaveforms) {
    let mut between = "";
    for waveform in waveforms.conditional.as_slice() {
        line.put(between);
        put_waveform(line, waveform.waveform.as_slice());
        line.put(" when ");
        put_expression(line, &waveform.condition);
        between = " else ";
    }
    if let Some(waveform) = &waveforms.otherwise {
        line.put(between);
        put_waveform(line, waveform.as_slice());
    }
}

/// Appends a concurrent assignment with its label.
pub fn put_assignment(line: &mut Line, assignment: &ConcurrentSignalAssignment) {
    line.put_label(&assignment.label);
    line.put_if(assignment.postponed, "postponed ");
    line.put_name(&assignment.target);
    line.put("<=");
    put_delay(line, &assignment.delay);
    put_waveforms(line, &assignment.waveforms);
    line.put(";");
}
