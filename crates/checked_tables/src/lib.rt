// Storing tables of seed models: the entry that refuses by number and place.
#![tactic(auto)]

ghost use Rattle.std.specs.Prelude.{◌≡◌, length};
ghost use Rattle.seed_models.specs.Words.{state_size, fresh_in};
ghost use Rattle.checked_tables.specs.Tables as T;
ghost use Rattle.checked_tables.specs.Parts as P;

use checked::Refusal;

// That a table has 16 angles, all of them finite, and that there is room for it.
fn check_table(words: &[f32], angles: &[f32]) -> Result<(), Refusal>
    requires { length words.now ≡ state_size }
    ensures { P.TableTested words.now angles.now result }
{
    if angles.len() != seed_models::RING_SAMPLES {
        return Err(Refusal::WrongLength);
    }
    checked::check_values(angles, 0)?;
    if seed_models::held(words) == seed_models::MOST_TABLES {
        return Err(Refusal::TablesFull);
    }
    Ok(())
}

// Stores the table of any angles: a refused one changes no word.
pub fn store_table(
    words: &mut [f32; seed_models::STATE_SIZE],
    angles: &[f32],
) -> Result<(), Refusal>
    ensures { (result ≡ T.table_refusal words.old angles.now)
        × (words.new ≡ T.words_with words.old angles.now) }
{
    check_table(words, angles)?;
    seed_models::store(words, angles);
    Ok(())
}

// Whatever the words are, afterwards they hold no table.
pub fn fresh_tables(words: &mut [f32; seed_models::STATE_SIZE])
    ensures { words.new ≡ fresh_in words.old }
{
    seed_models::fresh(words);
}
