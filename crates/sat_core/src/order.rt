//! In which order variables are decided, as what, and when a search begins anew. Nothing is proved of
//! it: a wrong order makes a search slow, and never wrong.

use knox_cnf::Lit;
use std::alloc::{AllocError, Global};

/// Scores are scaled down where one passes this.
const LIMIT: u64 = 1152921504606846976;

const SCALE: u64 = 1099511627776;

/// Variables that may be decided, those with the highest scores first.
pub struct Order {
    /// A heap of variables.
    heap: Vec<usize>,
    /// For each variable its place in the heap, counted from 1, or 0 where it isn't there.
    places: Vec<usize>,
    /// How often the variable stood in conflicts of late.
    scores: Vec<u64>,
    /// What it was the last time.
    phases: Vec<bool>,
    /// What the next conflict adds to a score.
    step: u64,
    /// After how many conflicts the search begins anew, and how many are left.
    pace: u64,
    left: u64,
}

impl Drop for Order {
    fn drop(self) {
        let Order {
            heap: _heap,
            places: _places,
            scores: _scores,
            phases: _phases,
            step: _step,
            pace: _pace,
            left: _left,
        } = self;
    }
}

fn value(numbers: &[usize], at: usize) -> usize {
    match numbers.get(at) {
        Some(number) => *number,
        None => 0,
    }
}

fn put(numbers: &mut [usize], at: usize, number: usize) {
    if at < numbers.len() {
        numbers[at] = number;
    }
}

fn score(scores: &[u64], var: usize) -> u64 {
    match scores.get(var) {
        Some(score) => *score,
        None => 0,
    }
}

/// Puts a variable at a place of the heap.
fn place(heap: &mut [usize], places: &mut [usize], at: usize, var: usize) {
    put(heap, at, var);
    put(places, var, at.saturating_add(1));
}

/// Moves an entry up while its score is higher.
fn rise(heap: &mut [usize], places: &mut [usize], scores: &[u64], from: usize) {
    let mut at = from;
    for _level in 0..64 {
        if at == 0 {
            return;
        }
        let parent = (at - 1) / 2;
        let var = value(heap, at);
        let above = value(heap, parent);
        if score(scores, var) <= score(scores, above) {
            return;
        }
        place(heap, places, at, above);
        place(heap, places, parent, var);
        at = parent;
    }
}

/// Which of the two entries below a place has the higher score.
fn higher_below(heap: &[usize], scores: &[u64], at: usize) -> Option<usize> {
    let left = at.saturating_mul(2).saturating_add(1);
    let right = left.saturating_add(1);
    if left >= heap.len() {
        return None;
    }
    if right < heap.len() && score(scores, value(heap, left)) < score(scores, value(heap, right)) {
        return Some(right);
    }
    Some(left)
}

/// Moves the first entry down while one below it has a higher score.
fn sink(heap: &mut [usize], places: &mut [usize], scores: &[u64]) {
    let mut at = 0;
    for _level in 0..64 {
        let Some(child) = higher_below(heap, scores, at) else {
            return;
        };
        let var = value(heap, at);
        let below = value(heap, child);
        if score(scores, below) <= score(scores, var) {
            return;
        }
        place(heap, places, at, below);
        place(heap, places, child, var);
        at = child;
    }
}

fn counted(alloc: Global, count: usize, first: usize) -> Result<Vec<usize>, AllocError> {
    let mut numbers = Vec::new(alloc);
    for k in 0..count {
        numbers.push(first.saturating_add(k))?;
    }
    Ok(numbers)
}

fn zeros(alloc: Global, count: usize) -> Result<Vec<u64>, AllocError> {
    let mut numbers = Vec::new(alloc);
    for _k in 0..count {
        numbers.push(0)?;
    }
    Ok(numbers)
}

fn negatives(alloc: Global, count: usize) -> Result<Vec<bool>, AllocError> {
    let mut phases = Vec::new(alloc);
    for _k in 0..count {
        phases.push(false)?;
    }
    Ok(phases)
}

fn scale_down(scores: &mut [u64]) {
    for k in 0..scores.len() {
        scores[k] /= SCALE;
    }
}

impl Order {
    /// The variables below a number, the first ones first.
    pub fn new(alloc: Global, count: usize) -> Result<Order, AllocError> {
        let heap = counted(alloc, count, 0)?;
        let places = counted(alloc, count, 1)?;
        let scores = zeros(alloc, count)?;
        let phases = negatives(alloc, count)?;
        Ok(Order {
            heap,
            places,
            scores,
            phases,
            step: 1024,
            pace: 100,
            left: 100,
        })
    }

    /// How many variables may be decided.
    pub fn len(&self) -> usize {
        self.heap.len()
    }

    /// Takes the variable with the highest score.
    pub fn take(&mut self) -> Option<usize> {
        let first = value(self.heap.as_slice(), 0);
        let last = self.heap.pop()?;
        if self.heap.is_empty() {
            put(self.places.as_mut_slice(), last, 0);
            return Some(last);
        }
        put(self.places.as_mut_slice(), first, 0);
        place(
            self.heap.as_mut_slice(),
            self.places.as_mut_slice(),
            0,
            last,
        );
        sink(
            self.heap.as_mut_slice(),
            self.places.as_mut_slice(),
            self.scores.as_slice(),
        );
        Some(first)
    }

    /// Whether a variable was true the last time.
    pub fn phase(&self, var: usize) -> bool {
        match self.phases.as_slice().get(var) {
            Some(phase) => *phase,
            None => false,
        }
    }

    fn rise(&mut self, var: usize) {
        let place = value(self.places.as_slice(), var);
        if place > 0 {
            rise(
                self.heap.as_mut_slice(),
                self.places.as_mut_slice(),
                self.scores.as_slice(),
                place - 1,
            );
        }
    }

    fn insert(&mut self, var: usize) {
        if value(self.places.as_slice(), var) > 0 {
            return;
        }
        if self.heap.push(var).is_ok() {
            put(self.places.as_mut_slice(), var, self.heap.len());
            self.rise(var);
        }
    }

    /// The variables of these literals, from a place on, aren't assigned any more.
    pub fn release(&mut self, lits: &[Lit], from: usize) {
        for k in from..lits.len() {
            let var = lits[k].var() as usize;
            if var < self.phases.len() {
                self.phases[var] = lits[k].is_positive();
            }
            self.insert(var);
        }
    }

    /// The variable of a literal stood in a conflict.
    fn bump(&mut self, lit: Lit) {
        let var = lit.var() as usize;
        let sum = score(self.scores.as_slice(), var).saturating_add(self.step);
        if var < self.scores.len() {
            self.scores[var] = sum;
        }
        if sum > LIMIT {
            scale_down(self.scores.as_mut_slice());
            self.step = self.step / SCALE + 1024;
        }
        self.rise(var);
    }

    /// These literals stood in a conflict.
    pub fn bump_all(&mut self, lits: &[Lit]) {
        for lit in lits {
            self.bump(*lit);
        }
    }

    /// The literals at these places stood in a conflict, the last for now.
    pub fn bump_places(&mut self, lits: &[Lit], places: &[usize]) {
        for place in places {
            if let Some(lit) = lits.get(*place) {
                self.bump(*lit);
            }
        }
        self.step = self.step.saturating_add(self.step / 16);
    }

    /// Whether so many conflicts have passed that the search begins anew. Each time it takes more.
    pub fn is_time(&mut self) -> bool {
        self.left = self.left.saturating_sub(1);
        if self.left > 0 {
            return false;
        }
        self.pace = self.pace.saturating_add(self.pace / 8);
        self.left = self.pace;
        true
    }
}
