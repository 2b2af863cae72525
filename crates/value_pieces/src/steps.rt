ghost use Rattle.std.specs.Prelude.{◌≡◌, IfOk};
ghost use Rattle.mir_grammar.specs.Places.{to_local_place, with_step, to_deref, to_field, to_downcast, to_index, to_front, to_back};

use crate::tokens::local_number;
use mir_grammar::{Named, Passed, Placed, Stepped};
use mir_ir::{PlaceExpr, Projection, Steps};
use mir_pieces::Piece;
use std::alloc::Global;
use vk_core::{LocalId, Name, NoMemory};

#[tactic(auto, unfolding(mir_grammar::specs::Places::to_local_place))]
pub fn to_local_place(alloc: Global, local: &Piece<'_>) -> Placed
    ensures { result ≡ to_local_place local.now }
{
    let number = local_number(local);
    Placed {
        place: PlaceExpr {
            local: LocalId(number),
            steps: Steps::new(alloc),
        },
        passed: Passed::of_local(number),
    }
}

/// A place with one step more.
pub fn with_step(placed: Placed, stepped: Stepped) -> Result<Placed, NoMemory>
    ensures { IfOk result (λ longer. longer ≡ with_step placed stepped) }
{
    let Placed { place, passed } = placed;
    let PlaceExpr { local, mut steps } = place;
    let Stepped { step, passed: more } = stepped;
    steps.push(step)?;
    Ok(Placed {
        place: PlaceExpr { local, steps },
        passed: passed.both(more),
    })
}

/// What a place points to.
#[tactic(auto, unfolding(mir_grammar::specs::Places::to_deref))]
pub fn to_deref(placed: Placed) -> Result<Placed, NoMemory>
    ensures { IfOk result (λ longer. longer ≡ to_deref placed) }
{
    let stepped = Stepped {
        step: Projection::Deref,
        passed: Passed::none(),
    };
    let longer = with_step(placed, stepped)?;
    Ok(longer)
}

/// A field, from its number and its type.
#[tactic(auto, unfolding(mir_grammar::specs::Places::to_field))]
pub fn to_field(number: &Piece<'_>, named: Named) -> Stepped
    ensures { result ≡ to_field (number.now, named) }
{
    let Named { ty, is_long, .. } = named;
    Stepped {
        step: Projection::Field {
            index: number.number_value(),
            ty,
        },
        passed: Passed::of_name(is_long),
    }
}

/// A variant, from its name.
#[tactic(auto, unfolding(mir_grammar::specs::Places::to_downcast))]
pub fn to_downcast(alloc: Global, word: &Piece<'_>) -> Result<Stepped, NoMemory>
    ensures { IfOk result (λ stepped. stepped ≡ to_downcast word.now) }
{
    let name = Name::from_bytes(alloc, word.text())?;
    Ok(Stepped {
        step: Projection::Downcast(name),
        passed: Passed::none(),
    })
}

/// The item whose number a local holds.
#[tactic(auto, unfolding(mir_grammar::specs::Places::to_index))]
pub fn to_index(local: &Piece<'_>) -> Stepped
    ensures { result ≡ to_index local.now }
{
    let number = local_number(local);
    Stepped {
        step: Projection::Index(LocalId(number)),
        passed: Passed::of_local(number),
    }
}

/// An item, counted from the front.
#[tactic(auto, unfolding(mir_grammar::specs::Places::to_front))]
pub fn to_front(at: &Piece<'_>, least: &Piece<'_>) -> Stepped
    ensures { result ≡ to_front (at.now, least.now) }
{
    Stepped {
        step: Projection::FromFront {
            at: at.number_value(),
            least: least.number_value(),
        },
        passed: Passed::none(),
    }
}

/// An item, counted from the back.
#[tactic(auto, unfolding(mir_grammar::specs::Places::to_back))]
pub fn to_back(at: &Piece<'_>, least: &Piece<'_>) -> Stepped
    ensures { result ≡ to_back (at.now, least.now) }
{
    Stepped {
        step: Projection::FromBack {
            at: at.number_value(),
            least: least.number_value(),
        },
        passed: Passed::none(),
    }
}
