//! Words that write a view, a window or a number.
ghost use Rattle.std.specs.Prelude.{ℕ, map, string_bytes, MatchOption};
ghost use Rattle.ml_cone.specs.declared.view.View.{View};
ghost use Rattle.ml_flight.specs.declared.window.Window.{Window};
ghost use Rattle.ml_view.specs.Words.{WritesView};
ghost use Rattle.ml_command.specs.Words.{AreViewWords, AreWindowWords, IsNumberFrom};

use ml_cone::View;
use ml_flight::Window;
use ml_ratio::read_whole;
use ml_view::read_view;

/// The view that five words write, if these do.
pub fn view_words(words: &[String]) -> Option<View>
    ensures { MatchOption result
        ((view : View) → ¬ (AreViewWords (map string_bytes words.now) view))
        (AreViewWords (map string_bytes words.now)) }
{
    match words {
        [cx, cy, w, h, scale] => view_of(
            cx.as_str(),
            cy.as_str(),
            w.as_str(),
            h.as_str(),
            scale.as_str(),
        ),
        _ => None,
    }
}

// The view that five words write.
fn view_of(cx: &str, cy: &str, w: &str, h: &str, scale: &str) -> Option<View>
    ensures { MatchOption result
        ((view : View) → ¬ (WritesView cx.now cy.now w.now h.now scale.now view))
        (WritesView cx.now cy.now w.now h.now scale.now) }
{
    match read_view(cx, cy, w, h, scale) {
        Ok(view) => Some(view),
        Err(_place) => None,
    }
}

/// The window that four words write, if these do. Its bounds are those of a view's window, whatever the scale.
pub fn window_words(words: &[String]) -> Option<Window>
    ensures { MatchOption result
        ((window : Window) → ¬ (AreWindowWords (map string_bytes words.now) window))
        (AreWindowWords (map string_bytes words.now)) }
{
    match words {
        [cx, cy, w, h] => match view_of(cx.as_str(), cy.as_str(), w.as_str(), h.as_str(), "1") {
            Some(view) => Window::of(view.cx, view.cy, view.w, view.h),
            None => None,
        },
        _ => None,
    }
}

/// The number that a word writes, if it lies in `least..=most`.
pub fn read_number(word: &str, least: u32, most: u32) -> Option<u32>
    ensures { MatchOption result ((number : ℕ) → ¬ (IsNumberFrom least most word.now number))
        (IsNumberFrom least most word.now) }
{
    match read_whole(word) {
        Some(number) => {
            if i64::from(least) <= number && number <= i64::from(most) {
                Some(number as u32)
            } else {
                None
            }
        }
        None => None,
    }
}
