// Post words: what a worker asks for, and what it was answered.
ghost use Rattle.std.specs.Prelude.{◌≡◌, ◌≢◌, ◌<◌, ◌^◌, IfSome, IfNone};
ghost use Rattle.kt_words.specs.BitFields.{Unpacks};
ghost use Rattle.kt_words.specs.Words.{IsPost, packed_post, post_kind, post_number};

use crate::bits::{joined, split};

const KIND_BITS: u32 = 3;

/// What the post word of a worker says.
#[derive(Clone, Copy, Debug, PartialEq, Eq)]
pub enum Post {
    /// The worker asks for nothing.
    Idle,
    /// It asks this victim for work.
    Posted(u32),
    /// Its request to this victim is being served.
    Held(u32),
    /// There was nothing to give.
    Failed,
    /// The task of this record was given.
    Task(u32),
    /// A piece of the loop of this record was given.
    Piece(u32),
}

/// The word that says this.
#[tactic(auto, unfolding(crate::specs::Words::packed_post))]
pub fn pack_post(v: &Post) -> u64
    ensures { result ≡ packed_post v.now }
{
    let (kind, number) = numbers(*v);
    joined(kind, KIND_BITS, number)
}

/// What a post word says, none where the word is not packed from a post.
pub fn unpack_post(word: u64) -> Option<Post>
    ensures { Unpacks IsPost packed_post word result }
{
    let (kind, rest) = split(word, KIND_BITS);
    if rest > u64::from(u32::MAX) {
        return None;
    }
    post_with(kind, rest as u32)
}

/// The kind of a post, and the number that stands in the rest of the word.
fn numbers(post: Post) -> (u64, u64)
    ensures kind { result.0 ≡ post_kind post }
    ensures number { result.1 ≡ post_number post }
    ensures fits { result.1 < 2 ^ 32 }
{
    match post {
        Post::Idle => (0, 0),
        Post::Posted(victim) => (1, u64::from(victim)),
        Post::Held(victim) => (2, u64::from(victim)),
        Post::Failed => (3, 0),
        Post::Task(at) => (4, u64::from(at)),
        Post::Piece(at) => (5, u64::from(at)),
    }
}

/// The post of this kind with this number.
fn post_with(kind: u64, number: u32) -> Option<Post>
    ensures found { IfSome result (λ post. (post_kind post ≡ kind) × (post_number post ≡ number)) }
    ensures none { IfNone result
        ((post : Post) → post_kind post ≡ kind → post_number post ≢ number) }
{
    match kind {
        0 if number == 0 => Some(Post::Idle),
        1 => Some(Post::Posted(number)),
        2 => Some(Post::Held(number)),
        3 if number == 0 => Some(Post::Failed),
        4 => Some(Post::Task(number)),
        5 => Some(Post::Piece(number)),
        _ => None,
    }
}
