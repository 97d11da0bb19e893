//! Lists whose items are read one after another. A fault in an item is a fault in the list.

ghost use Rattle.std.specs.Prelude.{◌≡◌, ◌≢◌, ◌∷◌, [], ◌++◌, Ok, Err, IfOk, IfErr, OnOk, OnErr};
ghost use Rattle.sim_text_grammar.specs.declared.error.ParseError.TheVariants.{OutOfMemory};

use sim_text_grammar::ParseError;
use sim_text_tree::list::NonEmpty;
use std::alloc::Global;

/// The list of the one item that was read.
pub fn first_of<T: Drop>(
    alloc: Global,
    read: Result<T, ParseError>,
) -> Result<NonEmpty<T>, ParseError>
    ensures ok { IfOk result (λ found. (first : T) × (read ≡ Ok first) × (found ≡ first ∷ [])) }
    ensures err { IfErr result (λ e. e ≢ OutOfMemory → read ≡ Err e) }
    ensures fault { IfErr read (λ e. result ≡ Err e) }
{
    let first = read?;
    let found = NonEmpty::new(alloc, first)?;
    Ok(found)
}

/// Appends the item that was read.
pub fn add<T: Drop>(found: &mut NonEmpty<T>, read: Result<T, ParseError>) -> Result<(), ParseError>
    ensures ok { OnOk result ((next : T) × (read ≡ Ok next) × (found.new ≡ found.old ++ next ∷ [])) }
    ensures err { IfErr result (λ e. e ≢ OutOfMemory → read ≡ Err e) }
    ensures fault { IfErr read (λ e. result ≡ Err e) }
    ensures kept { OnErr result (found.new ≡ found.old) }
{
    let next = read?;
    found.push(next)?;
    Ok(())
}

/// Appends the item that was read.
pub fn push<T: Drop>(found: &mut Vec<T>, read: Result<T, ParseError>) -> Result<(), ParseError>
    ensures ok { OnOk result ((next : T) × (read ≡ Ok next) × (found.new.items ≡ found.old.items ++ next ∷ [])) }
    ensures err { IfErr result (λ e. e ≢ OutOfMemory → read ≡ Err e) }
    ensures fault { IfErr read (λ e. result ≡ Err e) }
    ensures kept { OnErr result (found.new.items ≡ found.old.items) }
{
    let next = read?;
    found.push(next)?;
    Ok(())
}
