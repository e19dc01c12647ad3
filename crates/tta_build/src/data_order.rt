//! The data of a program as the data of its code.

ghost use Rattle.std.specs.Prelude.{◌≡◌, true, List, ℕ, nat_lt, map, IfOk, OnOk};
ghost use Rattle.std.specs.Prelude.{IsPermutation};
ghost use Rattle.std.specs.List.{list_all};
ghost use Rattle.std.specs.List.Sorted.{IsNonDecreasingBy};
ghost use Rattle.tta_list.specs.Laid.{over};
ghost use Rattle.tta_program.specs.Program.{data_of};
ghost use Rattle.tta_program.specs.Rules.{IsProgram};
ghost use Rattle.tta_code.specs.Whole.{laid_by, rises, fits};
ghost use Rattle.tta_code.specs.declared.whole.Datum.{Datum};
ghost use Rattle.tta_build.specs.Data.{datum_in};

use std::alloc::{AllocError, Global};
use tta_code::Datum;
use tta_list::Items;
use tta_program::{DataLine, Program};

/// The lines of a program's data.
fn lines_of(p: &Program) -> &[DataLine]
    ensures lines { result.now ≡ p.now.init }
    ensures rules { IsProgram p.now }
{
    p.init.as_slice()
}

/// A line of data without its line number.
fn datum_in(d: DataLine) -> Datum
    ensures { result ≡ datum_in d }
{
    Datum {
        address: d.address,
        value: d.value,
    }
}

/// The data in the order of the text.
fn data_in(alloc: Global, init: &[DataLine]) -> Result<Vec<Datum>, AllocError>
    ensures { IfOk result (λ ds. ds.items ≡ map datum_in init.now) }
{
    let mut data = Vec::new(alloc);
    for d in init {
        data.push(datum_in(*d))?;
    }
    Ok(data)
}

/// Puts data into the order of their addresses.
fn sort(data: &mut Vec<Datum>) -> Result<(), AllocError>
    ensures permutation { OnOk result (IsPermutation data.old.items data.new.items) }
    ensures ascend { OnOk result
        (IsNonDecreasingBy (λ (d : Datum). d.address) data.new.items) }
{
    data.sort_by_key(|d| d.address)?;
    Ok(())
}

/// The data of a program in the order of their addresses. They lay over every memory what the
/// program's data lay, and they fit into a data space where each address of the program's data is
/// one of its words. The only error is out of memory.
pub fn data_in_order(alloc: Global, p: &Program) -> Result<Items<Datum>, AllocError>
    ensures laid { IfOk result (λ ds. (memory : List ℕ)
        → over (laid_by ds) memory ≡ over (data_of p.now) memory) }
    ensures rises { IfOk result (λ ds. rises ds ≡ true) }
    ensures fits { IfOk result (λ ds. (words : ℕ)
        → list_all (λ d. nat_lt d.address words) p.now.init ≡ true → fits words ds ≡ true) }
{
    let mut data = data_in(alloc, lines_of(p))?;
    sort(&mut data)?;
    Ok(Items::of(data))
}
