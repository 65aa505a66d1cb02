// The answers of a page in plain arrays, a place for each question, as a C program is told them. Document 02, Job 1.
#![tactic(auto)]

ghost use Rattle.std.specs.Prelude.{◌≤◌, ◌≡◌, length};
ghost use Rattle.arrays.specs.Filled.{filled};
ghost use Rattle.pages.specs.Page.{answer_at};
ghost use Rattle.answer_arrays.specs.Told.{number_told, size_told};

use pages::Page;
use questions::Solution;
use refusals::Refusal;

// The number that tells an answer of a page: 1 can, 0 cannot, else the number of the refusal.
fn number_told(answer: Result<Solution, Refusal>) -> u8
    ensures { result ≡ number_told answer }
{
    match answer {
        Ok(Solution::Can) => 1,
        Ok(Solution::Cannot(_)) => 0,
        Err(refusal) => refusal.number,
    }
}

// The size of the set where the answer is cannot, else 0.
fn size_told(answer: Result<Solution, Refusal>) -> u16
    ensures { result ≡ size_told answer }
{
    match answer {
        Ok(Solution::Cannot(n)) => n,
        _ => 0,
    }
}

// The numbers of a page's answers, in their order; further places are left.
pub fn tell_numbers(page: Page, answers: &mut [u8])
    requires { (page.count ≤ 64) × (64 ≤ length answers.old) }
    ensures { answers.new ≡ filled page.count (λ i. number_told (answer_at page i)) answers.old }
{
    for i in 0..page.count {
        answers[i] = number_told(page.answers[i]);
    }
}

// The sizes of a page's answers, in their order; further places are left.
// A loop of its own beside `tell_numbers`: one function for both would take a type, a closure and a clause on it in place of one line.
pub fn tell_sizes(page: Page, sizes: &mut [u16])
    requires { (page.count ≤ 64) × (64 ≤ length sizes.old) }
    ensures { sizes.new ≡ filled page.count (λ i. size_told (answer_at page i)) sizes.old }
{
    for i in 0..page.count {
        sizes[i] = size_told(page.answers[i]);
    }
}
