ghost use Rattle.std.specs.Prelude.{◌≡◌, ◌++◌, ◌∷◌, [], ◌<◌, ◌%◌, IfOk, OnOk, find, length};
ghost use Rattle.program_types.specs.Inside.{types_now};
ghost use Rattle.typed_program.specs.Filed.{is_at};
ghost use Rattle.typed_program.specs.Hashes.{hash_of};
ghost use Rattle.typed_program.specs.Numbers.{IsPlaceOf, integer_types, scalar_types, types_of, with_type, with_types};

use crate::copies::copy_type;
use crate::files::Files;
use crate::hashes::hash_of;
use mir_ir::{Declarations, Function, IntTy, Ty};
use program_types::types_written;
use sqlite_items::{Items, at};
use std::alloc::Global;
use std::marker::Model;
use type_rules::same_type;
use vk_core::NoMemory;

/// Types, each once, with their places as their numbers. Contracts see the types.
#[derive(Drop)]
pub struct Numbers {
    types: Vec<Ty>,
    files: Files,
}

impl Model for Numbers {
    ghost use Rattle.std.specs.Prelude.{List};
    ghost use Rattle.std.specs.Coded.{codes};
    ghost use Rattle.mir_ir.specs.declared.types.Ty.{Ty};
    ghost use Rattle.mir_ir.specs.contracts.types.Ty as ty;

    ghost Value = { List Ty };

    ghost coded = { Prim.hlevel (codes, ty.the_row.coded) };

    ghost use Rattle.typed_program.specs.Filed.{types_in, AreFound};

    ghost view = { types_in };

    ghost invariant = { AreFound };
}

fn is_at(types: &[Ty], ty: &Ty, number: usize) -> bool
    ensures { result ≡ is_at types.now ty.now number }
{
    match at(types, number) {
        None => false,
        Some(other) => same_type(ty, other),
    }
}

fn found_in(types: &[Ty], ty: &Ty, file: &[usize]) -> Option<usize>
    ensures { result ≡ find (is_at types.now ty.now) file.now }
{
    file.iter()
        .copied()
        .find(|number| is_at(types, ty, *number))
}

fn file_number(files: &Files, ty: &Ty) -> usize
    requires { 0 < length files.now }
    ensures value { result ≡ hash_of ty.now % length files.now }
    ensures within { result < length files.now }
{
    (hash_of(ty) % files.len() as u64) as usize
}

impl Numbers {
    /// No types, with room for some.
    #[tactic(auto, using(crate::proofs::FileLaws::none_filed))]
    pub fn new(alloc: Global, rooms: usize) -> Result<Numbers, NoMemory>
        requires { 0 < rooms }
        ensures { IfOk result (λ n. n ≡ []) }
    {
        let files = Files::new(alloc, rooms)?;
        Ok(Numbers {
            types: Vec::new(alloc),
            files,
        })
    }

    /// In the order of their numbers.
    pub fn types(&self) -> &[Ty]
        ensures { result.now ≡ self.now }
    {
        self.types.as_slice()
    }

    /// The number of a type.
    #[tactic(auto, using(crate::proofs::FileLaws::found_place))]
    pub fn find(&self, ty: &Ty) -> Option<usize>
        ensures { IsPlaceOf self.now ty.now result }
    {
        let file = self.files.file(file_number(&self.files, ty));
        found_in(self.types.as_slice(), ty, file)
    }

    /// Gives a type the next number. An error leaves the types as they were.
    fn push(&mut self, ty: Ty) -> Result<(), NoMemory>
        ensures { OnOk result (self.new ≡ self.old ++ ty ∷ []) }
    {
        let at = file_number(&self.files, &ty);
        self.files.push(at, self.types.len())?;
        self.types.push(ty)?;
        Ok(())
    }

    /// Gives a type the next number, unless it has one.
    #[tactic(auto, using(crate::proofs::NumberLaws::type_put, crate::proofs::NumberLaws::type_left))]
    fn put(&mut self, alloc: Global, ty: &Ty) -> Result<(), NoMemory>
        ensures { OnOk result (self.new ≡ with_type self.old ty.now) }
    {
        match self.find(ty) {
            None => {
                let copy = copy_type(alloc, ty)?;
                self.push(copy)?;
                Ok(())
            }
            Some(_) => Ok(()),
        }
    }
}

fn put_integers(alloc: Global, numbers: &mut Numbers) -> Result<(), NoMemory>
    ensures { OnOk result (numbers.new ≡ with_types numbers.old integer_types) }
{
    numbers.put(alloc, &Ty::Int(IntTy::I8))?;
    numbers.put(alloc, &Ty::Int(IntTy::I16))?;
    numbers.put(alloc, &Ty::Int(IntTy::I32))?;
    numbers.put(alloc, &Ty::Int(IntTy::I64))?;
    numbers.put(alloc, &Ty::Int(IntTy::I128))?;
    numbers.put(alloc, &Ty::Int(IntTy::Isize))?;
    numbers.put(alloc, &Ty::Int(IntTy::U8))?;
    numbers.put(alloc, &Ty::Int(IntTy::U16))?;
    numbers.put(alloc, &Ty::Int(IntTy::U32))?;
    numbers.put(alloc, &Ty::Int(IntTy::U64))?;
    numbers.put(alloc, &Ty::Int(IntTy::U128))?;
    numbers.put(alloc, &Ty::Int(IntTy::Usize))?;
    Ok(())
}

fn put_scalars(alloc: Global, numbers: &mut Numbers) -> Result<(), NoMemory>
    ensures { OnOk result (numbers.new ≡ with_types numbers.old scalar_types) }
{
    numbers.put(alloc, &Ty::Bool)?;
    numbers.put(alloc, &Ty::Char)?;
    put_integers(alloc, numbers)?;
    numbers.put(alloc, &Ty::Never)?;
    let unit = Ty::Tuple(Items::new(alloc));
    numbers.put(alloc, &unit)?;
    Ok(())
}

fn put_all(alloc: Global, numbers: &mut Numbers, more: &[&Ty]) -> Result<(), NoMemory>
    ensures { OnOk result (numbers.new ≡ with_types numbers.old (types_now more.now)) }
{
    for ty in more {
        numbers.put(alloc, ty)?;
    }
    Ok(())
}

/// The types that functions and declarations name, each once.
#[tactic(auto, unfolding(crate::specs::Numbers::types_of), using(crate::proofs::NumberLaws::all_put))]
pub fn numbers_of(
    alloc: Global,
    functions: &[Function],
    declarations: &Declarations,
) -> Result<Numbers, NoMemory>
    ensures { IfOk result (λ n. n ≡ types_of (record { functions = functions.now; declarations = declarations.now })) }
{
    let written = types_written(alloc, functions, declarations)?;
    let mut numbers = Numbers::new(alloc, written.types().len().max(16))?;
    put_scalars(alloc, &mut numbers)?;
    put_all(alloc, &mut numbers, written.types())?;
    Ok(numbers)
}
