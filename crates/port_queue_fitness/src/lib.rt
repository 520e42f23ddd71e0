// Internal to the product: the fitness of the queues of a port record and of its sender.
#![tactic(auto)]

ghost use Rattle.std.specs.Prelude.{◌≡◌, ◌≤◌, ◌<◌, ◌^◌, length};
ghost use Rattle.model.specs.Units.{most_frames};
ghost use Rattle.model.specs.Table.{table_refusal};
ghost use Rattle.table.specs.View.{view_table};
ghost use Rattle.table_lookup.specs.Places.{Rising, Found};
ghost use Rattle.port_queue_fitness.specs.Queues.{load_fits, queues_fitness};

use port_scheduler::{Queue, Sending};
use table::Table;
use units::MOST_FRAMES;

// Guesses at the places of the first count numbers, by their last ten bits.
// A guess may be wrong: `place_near` tests it. A fixed array, and no map: the project's rule, no heap.
fn guesses_of(numbers: &[u16; 256], count: u16) -> [u8; 1024]
    requires { count ≤ 256 }
{
    let mut guesses = [0u8; 1024];
    for i in 0..usize::from(count) {
        guesses[usize::from(numbers[i] % 1024)] = i as u8;
    }
    guesses
}

// The place of a number, which is often the guess.
fn place_near(numbers: &[u16; 256], count: u16, number: u16, guess: u8) -> Option<usize>
    requires { (count ≤ length numbers.now) × Rising numbers.now count }
    ensures { Found numbers.now count number result }
{
    if u16::from(guess) < count {
        let i = usize::from(guess);
        if numbers[i] == number {
            return Some(i);
        }
    }
    table_lookup::place_of(numbers, count, u64::from(number))
}

// Of one queue: its frames, each of which names a link and fits it, and its held sum.
fn load_fits(t: Table, guesses: &[u8; 1024], q: Queue, priority: u8, clock: u64) -> bool
    requires { (table_refusal (view_table t) ≡ 0) × (q.count ≤ most_frames) }
    ensures { result ≡ load_fits t clock priority q }
{
    let mut low: u64 = 0;
    for i in 0..usize::from(q.count) {
        let f = q.frames[i];
        let guess = guesses[usize::from(f.number % 1024)];
        let place = place_near(&t.numbers, t.count, f.number, guess);
        let Some(k) = place else {
            return false;
        };
        if !port_fitness::frame_fits(t.links[k], f, priority, low, clock) {
            return false;
        }
        low = f.arrival;
    }
    port_scheduler::held(q) <= u64::from(q.mark)
}

fn count_of(q: &Queue) -> u64
    ensures { (result ≡ q.now.count) × (result < 2 ^ 16) }
{
    u64::from(q.count)
}

// Counts, frames, held sums and marks, and the frame being sent: the frames held, if all of it fits.
// An empty queue is not read: reading one is a copy.
pub fn queues_fit(t: Table, queues: [Queue; 8], sender: Option<Sending>, clock: u64) -> Option<u64>
    requires { table_refusal (view_table t) ≡ 0 }
    ensures { result ≡ queues_fitness t clock queues sender }
{
    let mut guesses = [0u8; 1024];
    let mut frames: u64 = 0;
    for i in 0..8 {
        if queues[i].count != 0 {
            if frames == 0 {
                guesses = guesses_of(&t.numbers, t.count);
            }
            let q = queues[i];
            if (MOST_FRAMES as u16) < q.count {
                return None;
            }
            if !load_fits(t, &guesses, q, i as u8, clock) {
                return None;
            }
        }
        if t.sizes[i] < queues[i].mark {
            return None;
        }
        frames += count_of(&queues[i]);
    }
    let Some(sending) = sender else {
        return Some(frames);
    };
    if 8 <= sending.priority {
        return None;
    }
    let head = queues[usize::from(sending.priority)];
    port_fitness::head_fits(head, sending.start, clock).then_some(frames)
}
