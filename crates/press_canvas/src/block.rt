//! Blocks of sixty-four lines of sixty-four dots, a number for each line.

ghost use Rattle.std.specs.Prelude.{◌≡◌, ℕ, ◌+◌, ◌-◌, ◌<◌, if◌then◌else◌, length};
ghost use Rattle.press_bits.specs.Words.{word_dot};
ghost use Rattle.press_canvas.specs.Block.{block_dot, dot_from, is_front, line_from, swapped_place, IsStep};

/// The front line of a pair of lines, after the dots at its rear and those at the front of the other one are exchanged.
#[inline(always)]
fn front_line(front: u64, rear: u64, step: usize, fronts: u64) -> u64
    requires { IsStep step fronts }
    ensures { (j : ℕ) → j < 64 → word_dot result j
        ≡ (if is_front step j then word_dot front j else word_dot rear (j - step)) }
{
    (front & fronts) | ((rear & fronts) >> step)
}

/// The rear line of such a pair.
#[inline(always)]
fn rear_line(front: u64, rear: u64, step: usize, fronts: u64) -> u64
    requires { IsStep step fronts }
    ensures { (j : ℕ) → j < 64 → word_dot result j
        ≡ (if is_front step j then word_dot front (j + step) else word_dot rear j) }
{
    ((front & !fronts) << step) | (rear & !fronts)
}

/// The dots of a word, of which each stretch of so many has changed places with the one beside it.
#[inline(always)]
fn swapped(word: u64, step: usize, fronts: u64) -> u64
    requires { IsStep step fronts }
    ensures { (j : ℕ) → j < 64 → word_dot result j ≡ word_dot word (swapped_place step j) }
{
    front_line(rear_line(word, 0, step, fronts), word, step, fronts)
}

/// The dots of a word, from the last one back.
#[inline(always)]
pub(crate) fn reversed(word: u64) -> u64
    ensures { (j : ℕ) → j < 64 → word_dot result j ≡ word_dot word (63 - j) }
{
    let pairs = swapped(word, 1, 0xAAAA_AAAA_AAAA_AAAA);
    let fours = swapped(pairs, 2, 0xCCCC_CCCC_CCCC_CCCC);
    swapped(fours, 4, 0xF0F0_F0F0_F0F0_F0F0).swap_bytes()
}

/// Exchanges the two squares of so many lines and dots that stand beside the diagonal, in each square of twice as many.
#[inline(always)]
fn exchange(words: &mut [u64], step: usize, fronts: u64)
    requires long { length words.old ≡ 64 }
    requires step { IsStep step fronts }
    ensures long { length words.new ≡ 64 }
    ensures dots { (i j : ℕ) → i < 64 → j < 64 → block_dot words.new i j
        ≡ block_dot words.old (line_from step i j) (dot_from step i j) }
{
    for pair in 0..32 / step {
        let first = 2 * pair * step;
        for line in first..first + step {
            let (front, rear) = (words[line], words[line + step]);
            words[line] = front_line(front, rear, step, fronts);
            words[line + step] = rear_line(front, rear, step, fronts);
        }
    }
}

/// Exchanges the lines and the columns of a block.
pub(crate) fn transpose(words: &mut [u64])
    requires { length words.old ≡ 64 }
    ensures long { length words.new ≡ 64 }
    ensures dots { (i j : ℕ) → i < 64 → j < 64 → block_dot words.new i j ≡ block_dot words.old j i }
{
    exchange(words, 32, 0xFFFF_FFFF_0000_0000);
    exchange(words, 16, 0xFFFF_0000_FFFF_0000);
    exchange(words, 8, 0xFF00_FF00_FF00_FF00);
    exchange(words, 4, 0xF0F0_F0F0_F0F0_F0F0);
    exchange(words, 2, 0xCCCC_CCCC_CCCC_CCCC);
    exchange(words, 1, 0xAAAA_AAAA_AAAA_AAAA);
}
