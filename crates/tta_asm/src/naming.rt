//! The names of a machine's parts and of its units' operations, collected.

ghost use Rattle.std.specs.Prelude.{◌≡◌, ◌≤◌, ◌++◌, ◌∷◌, [], ℕ, List, length, map, IfOk, OnOk};
ghost use Rattle.tta_ops.specs.Set.{stated};
ghost use Rattle.tta_asm.specs.Parts.{by_place, parts_of, ops_of};
ghost use Rattle.tta_asm.specs.Table.{NameTheSame, named_at, op_named, part_at};

use crate::parts::Part;
use crate::places::{files_of, imms_of, templates_of, units_of};
use std::alloc::{AllocError, Global};
use tta_arch::{File, ImmUnit, Machine, Template, Unit};
use tta_disasm::op_name;
use tta_list::Items;
use tta_ops::UnitSet;
use tta_parse::Names;

/// The kind of a part.
#[derive(Clone, Copy)]
enum Kind {
    File,
    Imm,
    Unit,
    Template,
}

impl Kind {
    /// The part of this kind at a place.
    fn at(self, place: u8) -> Part
        ensures { result ≡ part_at self place }
    {
        match self {
            Kind::File => Part::File(place),
            Kind::Imm => Part::Imm(place),
            Kind::Unit => Part::Unit(place),
            Kind::Template => Part::Template(place),
        }
    }
}

/// A part that has a name.
trait Named {
    /// Its name.
    ghost name_of: { Self → List ℕ };

    /// Its name.
    fn name(&self) -> &[u8]
        ensures { result.now ≡ name_of self.now };
}

impl Named for File {
    ghost name_of = { λ f. f.name };

    fn name(&self) -> &[u8] {
        self.name.as_bytes()
    }
}

impl Named for ImmUnit {
    ghost name_of = { λ i. i.name };

    fn name(&self) -> &[u8] {
        self.name.as_bytes()
    }
}

impl Named for Unit {
    ghost name_of = { λ u. u.name };

    fn name(&self) -> &[u8] {
        self.name.as_bytes()
    }
}

impl Named for Template {
    ghost name_of = { λ t. t.name };

    fn name(&self) -> &[u8] {
        self.name.as_bytes()
    }
}

/// Declares a name after the others, unless it is declared already: the first stands.
fn add_first<P: Copy>(
    alloc: Global,
    names: &mut Names<P>,
    name: &[u8],
    place: P,
) -> Result<(), AllocError>
    ensures { OnOk result (NameTheSame names.new (names.old ++ (name.now, place) ∷ [])) }
{
    if names.get(name).is_some() {
        return Ok(());
    }
    names.add(alloc, name, place)?;
    Ok(())
}

/// Declares the names of parts of one kind.
fn add_parts<T: Named>(
    alloc: Global,
    names: &mut Names<Part>,
    parts: &[T],
    kind: Kind,
) -> Result<(), AllocError>
    requires { length parts.now ≤ 256 }
    ensures { OnOk result (NameTheSame names.new
        (names.old ++ by_place (part_at kind) 0 (map T.name_of parts.now))) }
{
    for (place, part) in parts.iter().enumerate() {
        add_first(alloc, names, part.name(), kind.at(place as u8))?;
    }
    Ok(())
}

/// Declares the names of all parts of a machine after the others.
#[tactic(auto, unfolding(crate::specs::Parts::parts_of))]
fn add_all_parts(alloc: Global, names: &mut Names<Part>, m: &Machine) -> Result<(), AllocError>
    ensures { OnOk result (NameTheSame names.new (names.old ++ parts_of m.now)) }
{
    add_parts(alloc, names, files_of(m), Kind::File)?;
    add_parts(alloc, names, imms_of(m), Kind::Imm)?;
    add_parts(alloc, names, units_of(m), Kind::Unit)?;
    add_parts(alloc, names, templates_of(m), Kind::Template)?;
    Ok(())
}

/// The parts of a machine by their names.
pub fn all_parts(alloc: Global, m: &Machine) -> Result<Names<Part>, AllocError>
    ensures { IfOk result (λ names. NameTheSame names (parts_of m.now)) }
{
    let mut names = Names::new(alloc);
    add_all_parts(alloc, &mut names, m)?;
    Ok(names)
}

/// Declares the names of all operations of a unit after the others.
#[tactic(auto, unfolding(crate::specs::Parts::ops_of))]
fn add_ops(
    alloc: Global,
    names: &mut Names<u8>,
    unit: &Unit,
    units: &UnitSet,
) -> Result<(), AllocError>
    requires { length unit.now.ops ≤ 256 }
    ensures { OnOk result (NameTheSame names.new
        (names.old ++ ops_of (stated unit_meaning units.now) unit.now)) }
{
    for (place, op) in unit.ops.as_slice().iter().enumerate() {
        add_first(alloc, names, op_name(units, op.op), place as u8)?;
    }
    Ok(())
}

/// The operations of a unit by their names.
fn ops_of(alloc: Global, unit: &Unit, units: &UnitSet) -> Result<Names<u8>, AllocError>
    requires { length unit.now.ops ≤ 256 }
    ensures { IfOk result (λ names. NameTheSame names
        (ops_of (stated unit_meaning units.now) unit.now)) }
{
    let mut names = Names::new(alloc);
    add_ops(alloc, &mut names, unit, units)?;
    Ok(names)
}

/// The operations of each unit of a machine by their names.
pub fn all_ops(alloc: Global, m: &Machine, units: &UnitSet) -> Result<Items<Names<u8>>, AllocError>
    ensures count { IfOk result (λ all. length all ≡ length m.now.units) }
    ensures ops { IfOk result (λ all. (unit : ℕ) (name : List ℕ)
        → named_at all unit name ≡ op_named (stated unit_meaning units.now) m.now unit name) }
{
    let mut all = Items::new(alloc);
    for unit in units_of(m) {
        let ops = ops_of(alloc, unit, units)?;
        all.push(ops)?;
    }
    Ok(all)
}
