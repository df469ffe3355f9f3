//! The URLs that the desk shows, and the resources that it serves there.
ghost use Rattle.http_wire.specs.UrlLaws.{DocumentsHaveUrls, RepliesNameUrls, ShownUrlsAreServed};

/// Each URL of the desk is its base and a path that leads to the resource that the URL is meant for, and to no other.
/// What documents show as a URL, `Location`, and the links to the directory and to a challenge's authorization are these (RFC
/// 8555, 7.1).
#[tactic(auto, using(crate::proofs::AtPaths::are_served, crate::proofs::Members::have_urls, crate::proofs::Members::name_urls))]
pub fn shown_urls_are_served()
    ensures served { ShownUrlsAreServed }
    ensures documents { DocumentsHaveUrls }
    ensures replies { RepliesNameUrls }
{}
